// The word behind a program's name, which is its flag. No contract can speak of what the outside gives; a word that no program knows is no flag.
#![tactic(auto)]

use std::env::Env;

// The word, or nothing where there is none, or one that the buffer has no room for.
pub fn first<'a>(rt: &impl Env, buffer: &'a mut [u8; 4096]) -> Option<&'a [u8]> {
    let n = rt.arg(1, buffer).ok()?;
    buffer.get(..n)
}
