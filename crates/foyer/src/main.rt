// Plays a script from standard input on two ends and a display, and prints what they answer: docs/DISPLAYS.md.
#![tactic(auto)]

use std::io;

fn main(rt: HostRuntime) -> io::Result<()> {
    viewing::run(&rt)
}
