// Document 01's proof sheet: specs/Sheet.antt.
#![tactic(auto)]
