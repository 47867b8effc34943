// Theorems about the rules of an end, and no code: what Fire chooses and when it ends, what bytes that arrive can and cannot change,
// how requests back off, what is retired when last rises, what express repair does, and that the count of missed numbers and the kept pairs
// are those taken over the history of an end's calls. specs/ has them as statements in plain words, proofs/ proves each.
#![tactic(auto)]
