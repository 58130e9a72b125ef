// Document 01's marked examples P1 to P6 and P8 to P12 (theorems only): specs/Marked.antt lists them, proofs/MarkedLaws.antt proves that all hold.

#![tactic(auto)]
