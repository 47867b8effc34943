// Reads a run's record from standard input and prints "allowed", the number of the first line that the service's book does not permit, or
// "refused" with a number: document 02, P13. Here it is only read and written: what a record is judged as, fed in any pieces, is proved of
// `judgement::feed` and `finish`.
#![tactic(auto)]

use judgement::Kept;
use std::io;
use std::io::Read;

// Reads the next piece and takes it, and answers whether another is to be read: there is no more at the end of the input, and where there are
// too many lines already.
fn take_next(input: &mut impl Read, kept: &mut Kept) -> io::Result<bool> {
    let mut piece = [0u8; 4096];
    let n = input.read(&mut piece)?;
    *kept = judgement::feed(*kept, &piece[..n]);
    Ok(0 < n && !judgement::too_many(*kept))
}

// A proved loop has to end, and nothing says that the input does, so the pieces are counted, up to a number that no run uses up.
fn main(rt: HostRuntime) -> io::Result<()> {
    let mut input = rt.reader();
    let mut kept = judgement::opened();
    for _ in 0..u64::MAX {
        if !take_next(&mut input, &mut kept)? {
            break;
        }
    }
    let mut out = [0u8; 32];
    let n = judgement::finish(kept, &mut out);
    rt.write_all(&out[..n])
}
