// Document 01's desk as definitions that run, its laws, and the claim about every list of its calls.
#![tactic(auto)]
