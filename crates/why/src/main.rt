// Plays a script of house, and prints house's lines with the reason's words after each "ignored": document 02, P3.
#![tactic(auto)]

use std::io;

fn main(rt: HostRuntime) -> io::Result<()> {
    console::play(&rt, interpreter::opened_explaining())
}
