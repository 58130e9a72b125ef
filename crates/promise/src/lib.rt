// The promise (demand 3): a plan that is no harder than one with bounds has bounds, none larger, and every chain instance
// of its runs ends within them. Theorems only: specs/Promise.antt says what is promised, proofs/Theorem.antt proves it.

#![tactic(auto)]
