// A run of push records is its single pushes, also in a list of calls (document 02, Paper 1, and demand 3). This stands in specs/: it is no code.
#![tactic(auto)]
