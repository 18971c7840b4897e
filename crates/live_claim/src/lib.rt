// Demand 3 of the engine in lent memory: after any list of live calls it is the plain ledger. It is no code: the theorem is in specs/.
#![tactic(auto)]
