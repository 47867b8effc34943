// Cuts a script into lines as its bytes come. The definitions are in specs/Cut.antt.
#![tactic(auto)]

ghost use Rattle.std.specs.Prelude.{◌≡◌, drop};
ghost use Rattle.lines.specs.Cut.{fed_of, line_with, cut_of, line_cut};

// Kept: there are three outcomes, so an Option or a Result would be no plainer.
// What a byte makes of a line: it goes on, with so many bytes; it is whole, with so many bytes; or it is too long to be played.
#[derive(Clone, Copy)]
pub enum Fed {
    More(usize),
    Whole(usize),
    TooLong,
}

// What became of a line, and where the bytes after it start.
#[derive(Clone, Copy)]
pub struct Cut {
    pub fed: Fed,
    pub at: usize,
}

// How many bytes the longest line has that can be played, without its line feed.
const LONGEST: usize = 34;

// One byte after the `len` bytes of a line.
fn feed(line: &mut [u8; 34], len: usize, b: u8) -> Fed
    ensures value { result ≡ fed_of len b }
    ensures line_after { line.new ≡ line_with len b line.old }
{
    if b == b'\n' {
        return Fed::Whole(len);
    }
    if len < LONGEST {
        line[len] = b;
        Fed::More(len + 1)
    } else {
        Fed::TooLong
    }
}

// Takes the bytes of a piece, from a place on, into a line of `len` bytes, up to the line's end. Without a line feed they are all
// taken, and the line goes on with the next piece.
pub fn take_line(piece: &[u8], from: usize, line: &mut [u8; 34], len: usize) -> Cut
    ensures value { result ≡ cut_of (drop from piece.now) from len }
    ensures line_after { line.new ≡ line_cut (drop from piece.now) len line.old }
{
    let mut n = len;
    for place in from..piece.len() {
        match feed(line, n, piece[place]) {
            Fed::More(m) => {
                n = m;
            }
            Fed::Whole(m) => {
                return Cut {
                    fed: Fed::Whole(m),
                    at: place + 1,
                };
            }
            Fed::TooLong => {
                return Cut {
                    fed: Fed::TooLong,
                    at: place + 1,
                };
            }
        }
    }
    Cut {
        fed: Fed::More(n),
        at: from.max(piece.len()),
    }
}
