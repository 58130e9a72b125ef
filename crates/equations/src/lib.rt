// The equations of one row, what the rows beside it ask for, and what follows for its numbers: definitions and laws only.
#![tactic(auto)]
