// What a message says of a name: its word, with its name, its cue and who asked; and whose source it is about, and how many of its reports are
// heard. Each function is one definition of specs/Said.antt or of the crate end, specs/Arrival.antt. They are helpers of the crate receive and
// no calls of the product.
#![tactic(auto)]

ghost use Rattle.std.specs.Prelude.{◌≡◌, cond, ◌||◌};
ghost use Rattle.message.specs.Message.{meaning_of};
ghost use Rattle.message.specs.Question.{same_host};
ghost use Rattle.end.specs.Arrival.{message_cue, requester_in};
ghost use Rattle.says.specs.Said.{is_named, is_about, says_in, entry_in, asker_in, word_in, subject_of};

use end::{Says, Word};
use message::{ANNC, DATA, FTCH, Host, LATE, Message, NameEntry, REPL, RQST, XPRS};

// Whether a message of this kind is decided on by its word.
pub fn is_named(kind: u8) -> bool
    ensures { result ≡ is_named kind }
{
    matches!(kind, DATA | RQST | REPL | XPRS)
}

// Whether a message of this kind is about names.
fn is_about(kind: u8) -> bool
    ensures { result ≡ is_about kind }
{
    is_named(kind) || matches!(kind, FTCH | LATE | ANNC)
}

fn says_in(kind: u8) -> Says
    ensures { result ≡ says_in kind }
{
    match kind {
        DATA => Says::Data,
        RQST => Says::Rqst,
        REPL => Says::Repl,
        _ => Says::Xprs,
    }
}

// The first name of a message, or a blank where it has none.
pub fn entry_of(m: Message) -> NameEntry
    ensures { result ≡ entry_in (meaning_of m) }
{
    if m.counts.names == 0 {
        return message::no_name();
    }
    m.names[0]
}

// The cue of a message, or a blank where it has none.
pub fn cue_of(m: Message) -> [u8; 24]
    ensures { result ≡ message_cue (meaning_of m) }
{
    if m.counts.cues == 0 { [0; 24] } else { m.cue }
}

// Who asked, as what the message says has it.
fn requester_in(says: Says, m: Message) -> Host
    ensures { result ≡ requester_in says (meaning_of m) }
{
    match says {
        Says::Repl => entry_of(m).host,
        Says::Data | Says::Rqst | Says::Xprs => m.sender,
    }
}

pub fn asker_in(m: Message) -> Host
    ensures { result ≡ asker_in (meaning_of m) }
{
    requester_in(says_in(m.kind), m)
}

// The word of a message about a name, with the distance d to who asked.
pub fn word_in(m: Message, d: u64) -> Word
    ensures { result ≡ word_in (meaning_of m) d }
{
    let entry = entry_of(m);
    Word {
        says: says_in(m.kind),
        name: entry.name,
        host: entry.host,
        sender: m.sender,
        requester: asker_in(m),
        distance: d,
        cue: cue_of(m),
    }
}

// Whose source a message is about.
pub fn subject_of(m: Message) -> Host
    ensures { result ≡ subject_of (meaning_of m) }
{
    if is_about(m.kind) {
        entry_of(m).name.source
    } else {
        m.sender
    }
}

// How many reports of a message are heard.
pub fn report_count(me: Host, m: Message) -> usize
    ensures { result ≡ cond (same_host m.sender me || is_about m.kind) 0 m.counts.reports }
{
    if m.sender == me || is_about(m.kind) {
        0
    } else {
        m.counts.reports
    }
}
