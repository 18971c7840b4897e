// Document 02, Paper 9: sums of multiples of 1/32768, and what the order of mixing is without consequence for. It is no code: the definitions and theorems stand in specs/.
#![tactic(auto)]
