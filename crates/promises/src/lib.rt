// The promises of the product: no code. specs/ states each in plain types, proofs/Kept.antt has the one term that proves them all.
#![tactic(auto)]
