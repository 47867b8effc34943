// A name's record as 58 bytes: written, read and tested. The layout is in specs/Bytes.antt; that each record has one form, and that what passes the
// test is written as it was, is specs/RecordLaws.antt. A slot's three enums are taken for five numbers first.
#![tactic(auto)]

ghost use Rattle.std.specs.Prelude.{◌≡◌, ◌+◌, ◌≤◌, length};
ghost use Rattle.layout.specs.Puts.{Puts};
ghost use Rattle.lent_fields.specs.Fields.{part, Long};
ghost use Rattle.lent_records.specs.Bytes.{five_of, request_of, slot_of, is_slot, five_bytes, five_from, FiveFit};
ghost use Rattle.lent_records.specs.Bytes.{record_width, part_bytes, PartsFit, record_bytes, record_from, record_test, RecordFits};
ghost use Rattle.lent_records.specs.RecordLaws.{record_codec};

use end::{Record, Request, Slot};
use lent_fields::{Form, put1, put8, read1, read8};
use message::Host;

pub const RECORD: usize = 58;

// The tags.
const EMPTY: u8 = 0;

const HELD: u8 = 1;

const REPLY: u8 = 2;

const REQUEST: u8 = 3;

const EXPRESS: u8 = 4;

#[derive(Clone, Copy)]
pub struct Five {
    pub tag: u8,
    pub small: u8,
    pub a: u64,
    pub b: u64,
    pub c: u64,
}

const ZEROS: Five = Five {
    tag: EMPTY,
    small: 0,
    a: 0,
    b: 0,
    c: 0,
};

impl From<Slot> for Five {
    ghost from_gives = { λ slot f. f ≡ five_of slot };

    fn from(slot: Slot) -> Five {
        match slot {
            Slot::Empty => ZEROS,
            Slot::Held(None) => Five { tag: HELD, ..ZEROS },
            Slot::Held(Some((due, Host(who)))) => Five {
                tag: REPLY,
                small: who,
                a: due,
                ..ZEROS
            },
            Slot::Waiting(q, None) => Five {
                tag: REQUEST,
                small: q.round,
                a: q.due,
                b: q.quiet,
                c: 0,
            },
            Slot::Waiting(q, Some(due)) => Five {
                tag: EXPRESS,
                small: q.round,
                a: q.due,
                b: q.quiet,
                c: due,
            },
        }
    }
}

impl Five {
    fn request(self) -> Request
        ensures { result ≡ request_of self }
    {
        Request {
            round: self.small,
            due: self.a,
            quiet: self.b,
        }
    }

    fn slot(self) -> Slot
        ensures { result ≡ slot_of self }
    {
        match self.tag {
            EMPTY => Slot::Empty,
            HELD => Slot::Held(None),
            REPLY => Slot::Held(Some((self.a, Host(self.small)))),
            REQUEST => Slot::Waiting(self.request(), None),
            _ => Slot::Waiting(self.request(), Some(self.c)),
        }
    }

    // Whether the five numbers are those of a slot.
    fn is_slot(self) -> bool
        ensures { result ≡ is_slot self }
    {
        match self.tag {
            EMPTY | HELD => (self.small == 0) & (self.a == 0) & (self.b == 0) & (self.c == 0),
            REPLY => (self.b == 0) & (self.c == 0),
            REQUEST => self.c == 0,
            EXPRESS => true,
            _ => false,
        }
    }
}

fn get_five(s: &[u8], at: usize) -> Five
    requires { at + record_width ≤ length s.now }
    ensures { result ≡ five_from s.now at }
{
    Five {
        tag: read1(s, at),
        small: read1(s, at + 1),
        a: read8(s, at + 2),
        b: read8(s, at + 10),
        c: read8(s, at + 18),
    }
}

fn get_cue(s: &[u8], at: usize) -> [u8; 24]
    requires { at + 24 ≤ length s.now }
    ensures { result ≡ part 24 s.now at }
{
    let mut cue = [0u8; 24];
    cue.copy_from_slice(&s[at..at + 24]);
    cue
}

fn put_five(s: &mut [u8], at: usize, f: Five)
    requires { at + 26 ≤ length s.old }
    ensures puts { Puts at 26 (five_bytes f) s.old s.new }
    ensures five_fit { FiveFit f }
{
    put1(s, at, f.tag);
    put1(s, at + 1, f.small);
    put8(s, at + 2, f.a);
    put8(s, at + 10, f.b);
    put8(s, at + 18, f.c);
}

fn put_cue(s: &mut [u8], at: usize, cue: [u8; 24])
    requires { at + 24 ≤ length s.old }
    ensures puts { Puts at 24 cue s.old s.new }
    ensures long { Long 24 cue }
{
    numbers::put_bytes(s, at, &cue);
}

fn put_parts(s: &mut [u8], at: usize, f: Five, cue: [u8; 24], hush: u64)
    requires { at + record_width ≤ length s.old }
    ensures puts { Puts at record_width (part_bytes f cue hush) s.old s.new }
    ensures parts_fit { PartsFit f cue hush }
{
    put_five(s, at, f);
    put_cue(s, at + 26, cue);
    put8(s, at + 50, hush);
}

pub struct RecordForm;

impl Form for RecordForm {
    type Value = Record;

    const WIDTH: usize = RECORD;

    ghost WIDTH = { record_width };

    ghost bytes = { record_bytes };

    ghost from = { record_from };

    ghost passes = { record_test };

    ghost Fits = { RecordFits };

    fn read(s: &[u8], at: usize) -> Record {
        Record {
            slot: get_five(s, at).slot(),
            cue: get_cue(s, at + 26),
            hush: read8(s, at + 50),
        }
    }

    fn test(s: &[u8], at: usize) -> bool {
        get_five(s, at).is_slot()
    }

    fn put(s: &mut [u8], at: usize, r: Record) {
        put_parts(s, at, Five::from(r.slot), r.cue, r.hush);
    }

    ghost both_ways = { record_codec };
}
