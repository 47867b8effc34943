// Document 01's cases, and no code. Rows are computed from the definitions, and proofs/Cases.antt shows that every row holds: specs/Rows.antt
// is the one list of the starred cases; Moves, Wire, Timed, Quiet, Stage and Express pin the moves, the bytes, due times and distances, reply-quiet
// times, answers with their outputs, and express repair. specs/Shown.antt says demand 3 in terms of answers and outputs (proofs/Shown.antt), and
// proofs/Service.antt applies demand 3 to lists. specs/GotLimits.antt and CallLimits.antt have the lists that the book turns down
// (proofs/Limits.antt).
#![tactic(auto)]
