// Plays a script from standard input on two ends, hosts 0 and 1, and prints what they answer: document 01, "Cases". With the word `record`
// behind the program's name it prints the record of the run instead (document 02, P13): a script is a trace, and is played as one.
#![tactic(auto)]

use desk::Mode;
use std::io;

fn main(rt: HostRuntime) -> io::Result<()> {
    let mut buffer = [0u8; 4096];
    match arguments::first(&rt, &mut buffer) {
        Some(b"record") => playback::run(&rt, Mode::Record),
        _ => console::play(&rt, interpreter::opened()),
    }
}
