// The theorems of the wire, and no code: proofs/RoundTrip.antt has what reader and writer promise each other. They are about
// the definitions of the crate message that `reader::read` and `writer::write` are proved equal to.
#![tactic(auto)]
