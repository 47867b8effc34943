// Plays a script from standard input, and writes what it prints to standard output: what the programs house and why do. Here it is only read
// and written: what a piece of the script prints, and where the script stands then, is proved of `interpreter::feed` and `finish`.
#![tactic(auto)]

ghost use Rattle.std.specs.Prelude.{◌≡◌, false, ◌≤◌, ◌<◌, length, take, IfOk};
ghost use Rattle.interpreter.specs.Interpreter.{after, standing};

use interpreter::{Playing, Progress};
use std::io;
use std::io::Read;

// Takes bytes of a piece, at least one, and writes what they print.
fn play_some(rt: &impl Print, playing: Playing, piece: &[u8]) -> io::Result<Progress>
    requires stopped_value { playing.stopped ≡ false }
    requires piece_nonzero { 0 < length piece.now }
    ensures playing_value { IfOk result (λ fed. standing fed.playing ≡ after (standing playing) (take fed.taken piece.now)) }
    ensures taken_in_bounds { IfOk result (λ fed. fed.taken ≤ length piece.now) }
    ensures taken_nonzero { IfOk result (λ fed. 0 < fed.taken) }
{
    let mut out = [0u8; 4096];
    let fed = interpreter::feed(playing, piece, &mut out);
    rt.write_all(&out[..fed.used])?;
    Ok(fed)
}

// Plays a whole piece, or up to where the script stops.
fn play_piece(rt: &impl Print, from: Playing, piece: &[u8]) -> io::Result<Playing>
    ensures { IfOk result (λ playing. standing playing ≡ after (standing from) piece.now) }
{
    let mut playing = from;
    let mut rest = piece;
    while !rest.is_empty() && !playing.stopped {
        let fed = play_some(rt, playing, rest)?;
        rest = &rest[fed.taken..];
        playing = fed.playing;
    }
    Ok(playing)
}

// Plays all of standard input, up to its end or to where the script stops. A proved loop has to end, and nothing says that the input does,
// so the pieces are counted, up to a number that no run uses up. An error is one of reading or writing.
pub fn play(rt: &(impl Input + Print), from: Playing) -> io::Result<()> {
    let mut input = rt.reader();
    let mut playing = from;
    for _ in 0..u64::MAX {
        let mut piece = [0u8; 4096];
        let n = input.read(&mut piece)?;
        playing = play_piece(rt, playing, &piece[..n])?;
        if n == 0 || playing.stopped {
            break;
        }
    }
    let mut last = [0u8; 4];
    let n = interpreter::finish(playing, &mut last);
    rt.write_all(&last[..n])
}
