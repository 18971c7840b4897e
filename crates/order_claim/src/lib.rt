// Document 02, Paper 9, of the engine and of the desk: where the order of mixing is without consequence. It is no code: the theorems stand in specs/.
#![tactic(auto)]
