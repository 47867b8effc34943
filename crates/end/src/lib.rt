// The types of one SRM end, in the forms that document 01 names. All rules of the end are definitions on these types, in specs/: State,
// Records, Round, Names, Answer, Messages, Sound, Ready, Decide, Reasons, Session, Fire, Fetch, Arrival, Event, Why, Opening, in this order; then
// the service: Book, Run, and what both say of a Clash and of a Late cue: Clashes, Lates.
#![tactic(auto)]

use message::{CueNumber, Host, Name, Verdict};

// A draw, a number of 16 bits: which share of a wait is taken.
pub type Draw = u16;

// A call brings so many draws: one for each of the numbers that an end keeps of a source.
pub const DRAWS: usize = 64;

// An end keeps the latest so many numbers of a source: first is at least last less 63.
pub const KEPT: u64 = 64;

// A source has so many cue numbers; the next own number is at most this.
pub const NUMBERS: u32 = 65536;

// "due and quiet times are below 2^48+2^32"
pub const TIME_LIMIT: u64 = 281479271677952;

// C1, C2, C3 time a request and its quiet time, D1, D2, D3 a reply and its quiet time; each in quarters, 0..32. E, `express`, is how many
// ticks an express wait waits, 0..1000.
#[derive(Clone, Copy)]
pub struct Params {
    pub c1: u64,
    pub c2: u64,
    pub c3: u64,
    pub d1: u64,
    pub d2: u64,
    pub d3: u64,
    pub express: u64,
}

#[derive(Clone, Copy, PartialEq, Eq)]
pub enum Status {
    Idle,
    Joining,
    Member,
    Leaving,
    Crashed,
}

// A waiting request: its round 1..16, when it is due, and its quiet-until time, up to which a heard request changes nothing.
#[derive(Clone, Copy)]
pub struct Request {
    pub round: u8,
    pub due: u64,
    pub quiet: u64,
}

// Whether a reply waits: when it is due, and who asked.
pub type Reply = Option<(u64, Host)>;

// Whether an express wait stands beside a request, and when it is due.
pub type Express = Option<u64>;

// Kept: (d) three states, the last two with parts of their own: an Option of a Result would give a waiting request no name.
// What an end has of a name: nothing; its cue, and beside it perhaps a waiting reply; or a request for it, and beside that perhaps an
// express wait.
#[derive(Clone, Copy)]
pub enum Slot {
    Empty,
    Held(Reply),
    Waiting(Request, Express),
}

// A name's record. The cue bytes count where the slot is Held; `hush` is the reply-quiet time, before which no reply is set.
#[derive(Clone, Copy)]
pub struct Record {
    pub slot: Slot,
    pub cue: [u8; 24],
    pub hush: u64,
}

// First and last cue number of a source: both or neither.
pub type Span = Option<(CueNumber, CueNumber)>;

// The sources that a message reported, or the hosts that were tried, as bits: host h is in the set where bit h is 1.
pub type Hosts = u8;

// The latest stamp heard from a host, when, and the sources that the message reported.
pub type Heard = Option<(u64, u64, Hosts)>;

// The requester and the sender of the latest REPL answered Got or Done that named a number at least as high as the kept one's, and that number.
pub type Pair = Option<(Host, Host, CueNumber)>;

// The number of the first original since joining, of another host's source.
pub type Origin = Option<CueNumber>;

// Kept: (d) `late` is a mark of its own, and says nothing of whether `tried` counts.
// What an end has done to fetch one of the 64 numbers below a source's first original: the hosts that it tried, and whether the cue was handed
// out as Late.
#[derive(Clone, Copy)]
pub struct Attempt {
    pub tried: Hosts,
    pub late: bool,
}

// What an end keeps for one of the eight hosts, with a record for each of its latest 64 cue numbers: number n stands at place n mod 64.
// `missed` is how many numbers were retired without a cue since joining. Of the 64 numbers below the first original, number n has its marks at
// place n mod 64 of `attempts`.
#[derive(Clone, Copy)]
pub struct Source {
    pub span: Span,
    pub missed: u32,
    pub pair: Pair,
    pub distance: u64,
    pub heard: Heard,
    pub names: [Record; 64],
    pub origin: Origin,
    pub attempts: [Attempt; 64],
}

// The state of an end. `next` is the next own cue number, 0..65536.
#[derive(Clone, Copy)]
pub struct End {
    pub host: Host,
    pub params: Params,
    pub clock: u64,
    pub status: Status,
    pub next: u32,
    pub sources: [Source; 8],
}

// The moves of an end's membership.
#[derive(Clone, Copy)]
pub enum Move {
    Join,
    Joined,
    Leave,
    Left,
    Crash,
}

// The events. Send's cue and Arrival's bytes stand beside, since an enum holds no array.
#[derive(Clone, Copy)]
pub enum Event {
    Moves(Move),
    Send,
    Arrival,
    Fire,
    Report,
    Fetch(Name),
    Announce,
}

// What a step on one source takes of the end: one's own host, the parameters, and the clock, which is the call's by then.
#[derive(Clone, Copy)]
pub struct Moment {
    pub me: Host,
    pub params: Params,
    pub clock: u64,
}

// The kinds of a message about a name that a decision is made on. (FTCH and LATE have rules of their own.)
#[derive(Clone, Copy)]
pub enum Says {
    Data,
    Rqst,
    Repl,
    Xprs,
}

// What a message about a name says to its reader. `host` is the host in the name. The requester is the sender of a RQST or XPRS and the host
// in the name of a REPL (a DATA has none, and its sender stands there unread); the distance is the reader's to the requester.
#[derive(Clone, Copy)]
pub struct Word {
    pub says: Says,
    pub name: Name,
    pub host: Host,
    pub sender: Host,
    pub requester: Host,
    pub distance: u64,
    pub cue: [u8; 24],
}

// Why an event is Ignored: document 02, P3, in its order, and P9's last reason. A decision on a message has one of those from NotOpen to
// RequestQuiet, which lie in the name's source.
#[derive(Clone, Copy)]
pub enum Reason {
    Crashed,
    WrongStatus,
    OwnMessage,
    NotOpen,
    BelowFirst,
    OwnAboveLast,
    AlreadyHeld,
    ReplyWaiting,
    ReplyQuiet,
    RequestQuiet,
    NoFetch,
}

// Kept: (d) three outcomes of one call; a Result of an Option would hide that two of them are answers to the same question.
// What the reason call gives: the number of the question that would refuse the event, or why it would be Ignored, or that it would be
// neither.
#[derive(Clone, Copy)]
pub enum Why {
    Refused(u8),
    Because(Reason),
    NoReason,
}

// What is decided on a message about a name: one for each thing that a DATA, RQST, REPL or XPRS may do. BacksOff has the round that waits;
// Clashes is where the name is held with other bytes; Expresses is where the named sender repairs at once.
#[derive(Clone, Copy)]
pub enum Decision {
    Ignores(Reason),
    Opens,
    Takes,
    Repairs,
    Hushes,
    Replies,
    Learns,
    BacksOff(u8),
    Clashes,
    Expresses,
}

// What a call answers. A refusal gives only its number; Out gives the length of the message in the first output bytes; Got
// gives the name, and its cue is in the first 24 output bytes; Clash gives the name of a held cue that came with other bytes; Late gives the
// name of a fetched cue, which is in the first 24 output bytes; Exhausted says that no host is left to fetch from.
#[derive(Clone, Copy)]
pub enum Answer {
    Refused(u8),
    Out(usize),
    Got(Name),
    Done,
    Ignored,
    Nothing,
    Clash(Name),
    Late(Name),
    Exhausted,
}

// Kept: (a) the theorems on what Fire chooses (guarantees: Waits.antt `sooner` and `level`, Fires.antt `kind_for`) take a rank as a number.
// A wait that is due, as Fire compares it: its rank among waits due at one time (express, request, reply), and for which name.
#[derive(Clone, Copy)]
pub struct Wait {
    pub due: u64,
    pub rank: u8,
    pub name: Name,
}

pub const EXPRESS: u8 = 0;

pub const REQUEST: u8 = 1;

pub const REPLY: u8 = 2;

// The earliest wait found so far.
pub type Earliest = Option<Wait>;

// The nearest host found so far to fetch a cue from, and its distance.
pub type Nearest = Option<(Host, u64)>;

// Kept: (a) document 01: a call gives its answer and the end beside each other, also where it is refused; so does an opening.
// What a call gives: its answer, and the end that it leaves.
#[derive(Clone, Copy)]
pub struct Stepped {
    pub answer: Answer,
    pub end: End,
}

// What an opening answers: whether it was refused, and the end.
#[derive(Clone, Copy)]
pub struct Opened {
    pub verdict: Verdict,
    pub end: End,
}
