// The promise and "fits is kept" on the host's byte lists. Theorems only: specs/OnBytes.antt and specs/FromFile.antt say
// what, proofs/Theorem.antt and proofs/ReportPromise.antt prove it.

#![tactic(auto)]
