// A tape's listing over the plain ledger, and that the calls of `run` by which `trail` lists a tape write it. It is no code: the theorems stand in specs/.
#![tactic(auto)]
