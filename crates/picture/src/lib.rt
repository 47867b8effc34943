// What a trace shows of ends and messages: in words, by their digest, and whether two ends are the same. docs/TRACES.md says how each
// is written. These are tools of tests: their contracts say no more than that they are safe.
#![tactic(auto)]

pub mod digest;
pub mod flat;
pub mod letter;
pub mod same;
pub mod shown;
pub mod text;
