// Theorems on the judgement of a run's record: no code. specs/ states them, proofs/ proves them. Judged.antt: the judgement is the first prefix
// that is not permitted. Honest.antt: the record of a run of the service is never rejected.
#![tactic(auto)]
