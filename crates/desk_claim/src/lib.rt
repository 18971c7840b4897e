// The desk's claim: after any list of front and back calls the desk is the desk ledger.
#![tactic(auto)]
