// Reads windows of the year and questions from standard input and prints the next open minute, or the day after a date: document 02, P10.
// Here it is only read and written: what a piece of the input prints, and where the run stands then, is proved of `timetable::feed`, `finish`.
#![tactic(auto)]

ghost use Rattle.std.specs.Prelude.{◌≡◌, false, ◌≤◌, ◌<◌, length, take, IfOk};
ghost use Rattle.timetable.specs.Run.{after, standing};

use std::io;
use std::io::Read;
use timetable::{Playing, Progress};

// Takes bytes of a piece, at least one, and writes what they print.
fn play_some(rt: &impl Print, playing: Playing, piece: &[u8]) -> io::Result<Progress>
    requires stopped_value { playing.stopped ≡ false }
    requires piece_nonzero { 0 < length piece.now }
    ensures playing_value { IfOk result (λ fed. standing fed.playing ≡ after (standing playing) (take fed.taken piece.now)) }
    ensures taken_in_bounds { IfOk result (λ fed. fed.taken ≤ length piece.now) }
    ensures taken_nonzero { IfOk result (λ fed. 0 < fed.taken) }
{
    let mut out = [0u8; 4096];
    let fed = timetable::feed(playing, piece, &mut out);
    let used = fed.used;
    rt.write_all(&out[..used])?;
    Ok(fed)
}

// Plays a whole piece, or up to where the run stops.
fn play_piece(rt: &impl Print, from: Playing, piece: &[u8]) -> io::Result<Playing>
    ensures { IfOk result (λ playing. standing playing ≡ after (standing from) piece.now) }
{
    let mut playing = from;
    let mut at: usize = 0;
    while (at < piece.len()) & !playing.stopped {
        let fed = play_some(rt, playing, &piece[at..])?;
        at += fed.taken;
        playing = fed.playing;
    }
    Ok(playing)
}

// A proved loop has to end, and nothing says that the input does, so the pieces are counted, up to a number that no run uses up.
fn main(rt: HostRuntime) -> io::Result<()> {
    let mut input = rt.reader();
    let mut playing = timetable::opened();
    for _ in 0..u64::MAX {
        let mut piece = [0u8; 4096];
        let n = input.read(&mut piece)?;
        playing = play_piece(&rt, playing, &piece[..n])?;
        if n == 0 || playing.stopped {
            break;
        }
    }
    let mut last = [0u8; 4];
    let n = timetable::finish(playing, &mut last);
    rt.write_all(&last[..n])
}
