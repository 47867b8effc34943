// Theorems about ends and displays whose states are lent as bytes, and no code: when a Fire puts something out, what reopening after a restart is, and
// that lists of calls over lent bytes, restarts among them, are lists of demand 3. specs/ has them as statements in plain words, proofs/ proves each.
#![tactic(auto)]
