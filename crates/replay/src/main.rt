// Plays a trace from standard input on the compiled product: docs/TRACES.md. Behind the program's name may stand `rows`, `words` or `record`.
#![tactic(auto)]

use desk::Mode;
use std::io;

fn main(rt: HostRuntime) -> io::Result<()> {
    let mut buffer = [0u8; 4096];
    let mode = match arguments::first(&rt, &mut buffer) {
        Some(b"rows") => Mode::Rows,
        Some(b"words") => Mode::Words,
        Some(b"record") => Mode::Record,
        _ => Mode::Plain,
    };
    playback::run(&rt, mode)
}
