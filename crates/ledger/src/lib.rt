// Judges the lines of a run's record by the service's book. The definitions are in specs/: Judgement.antt (which lines the book permits, and the
// judgement) and View.antt (what the book says of one host, source and cue). The book is not kept: what it says of a line follows from the lines
// before it, of which there are at most 1,024, so a walk over them answers.
#![tactic(auto)]

ghost use Rattle.std.specs.Prelude.{◌≡◌, ◌-◌, ◌≤◌, ◌<◌, length};
ghost use Rattle.end.specs.Decide.{same_cue};
ghost use Rattle.end.specs.Event.{moves_to};
ghost use Rattle.end.specs.Book.{empty_book};
ghost use Rattle.ledger.specs.Judgement.{anywhere, permits, written_all, judged_from, is_malformed, any_malformed, judgement_of};
ghost use Rattle.ledger.specs.View.{asked_for, asked_of, no_line, view_of, joins, moved_view, filed_view, leaves_free, handed_view, view_after, allowed_by};

use end::{Move, Status};
use message::{CueNumber, Host};
use record::{Line, Said};

// The judgement of a record: it is allowed, or the number of the first line that is not permitted, or the record is refused.
// Kept: (d) an enum of its own, since these are three answers and not the two of an Option or Result; a refusal's number is the page's, 16 or 17.
#[derive(Clone, Copy, PartialEq, Eq, Debug)]
pub enum Judgement {
    Allowed,
    BrokenAt(usize),
    Refused(u8),
}

// What a line is judged by: its host, and the name and cue that it brings.
#[derive(Clone, Copy)]
struct Asked {
    host: Host,
    source: Host,
    number: CueNumber,
    cue: [u8; 24],
}

// What the book says of that: the host's status; how many cues the source filed, and whether the one under the number is this; whether the
// host was handed out a cue of the source since it joined, and whether the number may be handed out now.
#[derive(Clone, Copy)]
struct View {
    status: Status,
    filed: usize,
    same: bool,
    began: bool,
    free: bool,
}

// A record of more lines is refused.
const MOST_LINES: usize = 1024;

// What the empty book says.
const NO_VIEW: View = View {
    status: Status::Idle,
    filed: 0,
    same: false,
    began: false,
    free: true,
};

// ---- the moves

fn moves_to(m: Move) -> Status
    ensures { result ≡ moves_to m }
{
    match m {
        Move::Join => Status::Joining,
        Move::Joined => Status::Member,
        Move::Leave => Status::Leaving,
        Move::Left => Status::Idle,
        Move::Crash => Status::Crashed,
    }
}

fn is_joined(m: Move) -> bool
    ensures { result ≡ joins m }
{
    matches!(m, Move::Joined)
}

fn is_anywhere(m: Move) -> bool
    ensures { result ≡ anywhere m }
{
    matches!(m, Move::Join | Move::Leave | Move::Crash)
}

// Whether two cues agree in all 24 bytes.
fn same_cue(a: [u8; 24], b: [u8; 24]) -> bool
    ensures { result ≡ same_cue a b }
{
    a == b
}

// ---- the view

fn moved_view(m: Move, v: View) -> View
    ensures { result ≡ moved_view m v }
{
    if !membership::may_move(m, v.status) {
        return v;
    }
    let joined = is_joined(m);
    View {
        status: moves_to(m),
        began: v.began & !joined,
        free: v.free | joined,
        ..v
    }
}

fn filed_view(a: Asked, cue: [u8; 24], v: View) -> View
    requires { v.filed < 65536 }
    ensures { result ≡ filed_view a cue v }
{
    let same = if a.number.0 as usize == v.filed {
        same_cue(cue, a.cue)
    } else {
        v.same
    };
    View {
        filed: v.filed + 1,
        same,
        ..v
    }
}

fn leaves_free(began: bool, new: u16, n: u16) -> bool
    ensures { result ≡ leaves_free began new n }
{
    (began | (new <= n)) & ((new.saturating_sub(63) <= n) & (n != new))
}

fn handed_view(a: Asked, new: CueNumber, v: View) -> View
    ensures { result ≡ handed_view a new.0 v }
{
    View {
        began: true,
        free: v.free & leaves_free(v.began, new.0, a.number.0),
        ..v
    }
}

#[tactic(auto, unfolding(crate::specs::View::view_after))]
fn view_after(a: Asked, l: Line, v: View) -> View
    requires { v.filed < 65536 }
    ensures { result ≡ view_after a l.said l.cue v }
{
    match l.said {
        Said::Moved(m, h) if a.host.0 == h.0 => moved_view(m, v),
        Said::Sent(h, _) if a.source.0 == h.0 => filed_view(a, l.cue, v),
        Said::Got(h, name) if (a.host.0 == h.0) & (a.source.0 == name.source.0) => {
            handed_view(a, name.number, v)
        }
        _ => v,
    }
}

// What the book says after some lines.
fn view_before(lines: &[Line], a: Asked) -> View
    requires { length lines.now ≤ 1025 }
    ensures { result ≡ view_of (written_all empty_book lines.now) a }
{
    let mut v = NO_VIEW;
    for l in lines {
        v = view_after(a, *l, v);
    }
    v
}

fn asking(host: Host, source: Host, number: CueNumber, cue: [u8; 24]) -> Asked
    ensures { result ≡ asked_for host source number cue }
{
    Asked {
        host,
        source,
        number,
        cue,
    }
}

fn asked_of(l: Line) -> Asked
    ensures { result ≡ asked_of l.said l.cue }
{
    match l.said {
        Said::Malformed => asking(Host(0), Host(0), CueNumber(0), l.cue),
        Said::Moved(_, h) => asking(h, h, CueNumber(0), l.cue),
        Said::Sent(h, n) => asking(h, h, n, l.cue),
        Said::Got(h, name) => asking(h, name.source, name.number, l.cue),
    }
}

#[tactic(auto, unfolding(crate::specs::View::allowed_by))]
fn allowed_by(l: Line, v: View) -> bool
    ensures { result ≡ allowed_by l.said v }
{
    match l.said {
        Said::Malformed => false,
        Said::Moved(m, _) => is_anywhere(m) | membership::may_move(m, v.status),
        Said::Sent(_, n) => state::is_member(v.status) & (n.0 as usize == v.filed),
        Said::Got(h, name) => {
            state::is_member(v.status) & ((h.0 != name.source.0) & (v.same & v.free))
        }
    }
}

// ---- the judgement

// Whether the book permits a line after those before it.
fn permitted(before: &[Line], l: Line) -> bool
    requires { length before.now ≤ 1025 }
    ensures { result ≡ permits (written_all empty_book before.now) l }
{
    allowed_by(l, view_before(before, asked_of(l)))
}

// The first line that is not permitted.
fn judged(lines: &[Line]) -> Judgement
    requires { length lines.now ≤ 1025 }
    ensures { result ≡ judged_from empty_book 1 lines.now }
{
    match (0..lines.len()).find(|k| !permitted(&lines[..*k], lines[*k])) {
        Some(k) => Judgement::BrokenAt(k + 1),
        None => Judgement::Allowed,
    }
}

fn is_malformed(l: Line) -> bool
    ensures { result ≡ is_malformed l.said }
{
    matches!(l.said, Said::Malformed)
}

fn any_malformed(lines: &[Line]) -> bool
    ensures { result ≡ any_malformed lines.now }
{
    lines.iter().any(|l| is_malformed(*l))
}

// Judges the lines of a record.
#[tactic(auto, unfolding(crate::specs::Judgement::judgement_of))]
pub fn judge(lines: &[Line]) -> Judgement
    ensures { result ≡ judgement_of lines.now }
{
    if MOST_LINES < lines.len() {
        Judgement::Refused(16)
    } else if any_malformed(lines) {
        Judgement::Refused(17)
    } else {
        judged(lines)
    }
}
