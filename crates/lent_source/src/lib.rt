// A source as 3,883 bytes: written, read and tested. The layout is in specs/Source.antt; that each source has one form, and that what passes the
// test is written as it was, is specs/SourceLaws.antt.
#![tactic(auto)]

ghost use Rattle.std.specs.Prelude.{◌≡◌, ◌+◌, ◌≤◌, length};
ghost use Rattle.layout.specs.Puts.{Puts};
ghost use Rattle.lent_fields.specs.Fields.{two, three, four};
ghost use Rattle.lent_source.specs.Source.{three_bytes, ThreeFit, span_from, span_test, span_bytes, SpanFits};
ghost use Rattle.lent_source.specs.Source.{four_bytes, FourFit, pair_from, pair_test, pair_bytes, PairFits};
ghost use Rattle.lent_source.specs.Source.{times_bytes, TimesFit, heard_from, heard_test, heard_bytes, HeardFits};
ghost use Rattle.lent_source.specs.Source.{one_bytes, OneFits, origin_from, origin_test, origin_bytes, OriginFits};
ghost use Rattle.lent_source.specs.Source.{attempt_from, attempt_test, attempt_bytes, AttemptFits};
ghost use Rattle.lent_source.specs.Source.{front_bytes, FrontFits, source_width, source_from, source_test, source_bytes, SourceFits};
ghost use Rattle.lent_source.specs.SourceLaws.{span_codec, pair_codec, heard_codec, origin_codec, attempt_codec, source_codec};

use end::{Attempt, Heard, Origin, Pair, Record, Slot, Source, Span};
use lent_fields::{Form, is_option, option_of, put1, put2, put4, put8, read1, read2, read4, read8};
use lent_records::RecordForm;
use message::{CueNumber, Host};

pub const SOURCE: usize = 3883;

// ---- the span
fn put_three(s: &mut [u8], at: usize, tag: u8, first: u16, last: u16)
    requires { at + 5 ≤ length s.old }
    ensures puts { Puts at 5 (three_bytes (three tag first last)) s.old s.new }
    ensures three_fit { ThreeFit (three tag first last) }
{
    put1(s, at, tag);
    put2(s, at + 1, first);
    put2(s, at + 3, last);
}

pub struct SpanForm;

impl Form for SpanForm {
    type Value = Span;

    const WIDTH: usize = 5;

    ghost WIDTH = { 5 };

    ghost bytes = { span_bytes };

    ghost from = { span_from };

    ghost passes = { span_test };

    ghost Fits = { SpanFits };

    fn read(s: &[u8], at: usize) -> Span {
        let ends = (CueNumber(read2(s, at + 1)), CueNumber(read2(s, at + 3)));
        option_of(read1(s, at), ends)
    }

    fn test(s: &[u8], at: usize) -> bool {
        let none = (read2(s, at + 1) == 0) & (read2(s, at + 3) == 0);
        is_option(read1(s, at), none)
    }

    fn put(s: &mut [u8], at: usize, span: Span) {
        match span {
            None => put_three(s, at, 0, 0, 0),
            Some((first, last)) => put_three(s, at, 1, first.0, last.0),
        }
    }

    ghost both_ways = { span_codec };
}

pub fn get_span(s: &[u8], at: usize) -> Span
    requires { at + 5 ≤ length s.now }
    ensures { result ≡ span_from s.now at }
{
    SpanForm::read(s, at)
}

// ---- the pair
fn put_four(s: &mut [u8], at: usize, tag: u8, a: u8, b: u8, n: u16)
    requires { at + 5 ≤ length s.old }
    ensures puts { Puts at 5 (four_bytes (four tag a b n)) s.old s.new }
    ensures four_fit { FourFit (four tag a b n) }
{
    put1(s, at, tag);
    put1(s, at + 1, a);
    put1(s, at + 2, b);
    put2(s, at + 3, n);
}

pub struct PairForm;

impl Form for PairForm {
    type Value = Pair;

    const WIDTH: usize = 5;

    ghost WIDTH = { 5 };

    ghost bytes = { pair_bytes };

    ghost from = { pair_from };

    ghost passes = { pair_test };

    ghost Fits = { PairFits };

    fn read(s: &[u8], at: usize) -> Pair {
        let pair = (
            Host(read1(s, at + 1)),
            Host(read1(s, at + 2)),
            CueNumber(read2(s, at + 3)),
        );
        option_of(read1(s, at), pair)
    }

    fn test(s: &[u8], at: usize) -> bool {
        let none = (read1(s, at + 1) == 0) & (read1(s, at + 2) == 0) & (read2(s, at + 3) == 0);
        is_option(read1(s, at), none)
    }

    fn put(s: &mut [u8], at: usize, pair: Pair) {
        match pair {
            None => put_four(s, at, 0, 0, 0, 0),
            Some((a, b, n)) => put_four(s, at, 1, a.0, b.0, n.0),
        }
    }

    ghost both_ways = { pair_codec };
}

// ---- what was heard
fn put_times(s: &mut [u8], at: usize, tag: u8, stamp: u64, when: u64, hosts: u8)
    requires { at + 18 ≤ length s.old }
    ensures puts { Puts at 18 (times_bytes (four tag stamp when hosts)) s.old s.new }
    ensures times_fit { TimesFit (four tag stamp when hosts) }
{
    put1(s, at, tag);
    put8(s, at + 1, stamp);
    put8(s, at + 9, when);
    put1(s, at + 17, hosts);
}

pub struct HeardForm;

impl Form for HeardForm {
    type Value = Heard;

    const WIDTH: usize = 18;

    ghost WIDTH = { 18 };

    ghost bytes = { heard_bytes };

    ghost from = { heard_from };

    ghost passes = { heard_test };

    ghost Fits = { HeardFits };

    fn read(s: &[u8], at: usize) -> Heard {
        let heard = (read8(s, at + 1), read8(s, at + 9), read1(s, at + 17));
        option_of(read1(s, at), heard)
    }

    fn test(s: &[u8], at: usize) -> bool {
        let none = (read8(s, at + 1) == 0) & (read8(s, at + 9) == 0) & (read1(s, at + 17) == 0);
        is_option(read1(s, at), none)
    }

    fn put(s: &mut [u8], at: usize, heard: Heard) {
        match heard {
            None => put_times(s, at, 0, 0, 0, 0),
            Some((stamp, when, hosts)) => put_times(s, at, 1, stamp, when, hosts),
        }
    }

    ghost both_ways = { heard_codec };
}

// ---- the first original
fn put_one(s: &mut [u8], at: usize, tag: u8, n: u16)
    requires { at + 3 ≤ length s.old }
    ensures puts { Puts at 3 (one_bytes (two tag n)) s.old s.new }
    ensures one_fits { OneFits (two tag n) }
{
    put1(s, at, tag);
    put2(s, at + 1, n);
}

pub struct OriginForm;

impl Form for OriginForm {
    type Value = Origin;

    const WIDTH: usize = 3;

    ghost WIDTH = { 3 };

    ghost bytes = { origin_bytes };

    ghost from = { origin_from };

    ghost passes = { origin_test };

    ghost Fits = { OriginFits };

    fn read(s: &[u8], at: usize) -> Origin {
        option_of(read1(s, at), CueNumber(read2(s, at + 1)))
    }

    fn test(s: &[u8], at: usize) -> bool {
        is_option(read1(s, at), read2(s, at + 1) == 0)
    }

    fn put(s: &mut [u8], at: usize, origin: Origin) {
        match origin {
            None => put_one(s, at, 0, 0),
            Some(n) => put_one(s, at, 1, n.0),
        }
    }

    ghost both_ways = { origin_codec };
}

pub fn get_origin(s: &[u8], at: usize) -> Origin
    requires { at + 3 ≤ length s.now }
    ensures { result ≡ origin_from s.now at }
{
    OriginForm::read(s, at)
}

// ---- the attempts
pub struct AttemptForm;

impl Form for AttemptForm {
    type Value = Attempt;

    const WIDTH: usize = 2;

    ghost WIDTH = { 2 };

    ghost bytes = { attempt_bytes };

    ghost from = { attempt_from };

    ghost passes = { attempt_test };

    ghost Fits = { AttemptFits };

    fn read(s: &[u8], at: usize) -> Attempt {
        Attempt {
            tried: read1(s, at),
            late: read1(s, at + 1) == 1,
        }
    }

    fn test(s: &[u8], at: usize) -> bool {
        read1(s, at + 1) <= 1
    }

    fn put(s: &mut [u8], at: usize, x: Attempt) {
        put1(s, at, x.tried);
        put1(s, at + 1, u8::from(x.late));
    }

    ghost both_ways = { attempt_codec };
}

// ---- the source
const BLANK: Record = Record {
    slot: Slot::Empty,
    cue: [0; 24],
    hush: 0,
};

const UNTRIED: Attempt = Attempt {
    tried: 0,
    late: false,
};

fn put_front(s: &mut [u8], at: usize, span: Span, missed: u32, pair: Pair, distance: u64)
    requires { at + 22 ≤ length s.old }
    ensures puts { Puts at 22 (front_bytes span missed pair distance) s.old s.new }
    ensures front_fits { FrontFits span missed pair distance }
{
    SpanForm::put(s, at, span);
    put4(s, at + 5, missed);
    PairForm::put(s, at + 9, pair);
    put8(s, at + 14, distance);
}

pub struct SourceForm;

impl Form for SourceForm {
    type Value = Source;

    const WIDTH: usize = SOURCE;

    ghost WIDTH = { source_width };

    ghost bytes = { source_bytes };

    ghost from = { source_from };

    ghost passes = { source_test };

    ghost Fits = { SourceFits };

    fn read(s: &[u8], at: usize) -> Source {
        Source {
            span: SpanForm::read(s, at),
            missed: read4(s, at + 5),
            pair: PairForm::read(s, at + 9),
            distance: read8(s, at + 14),
            heard: HeardForm::read(s, at + 22),
            names: lent_fields::read_over::<RecordForm, 64>(BLANK, s, at + 171),
            origin: OriginForm::read(s, at + 40),
            attempts: lent_fields::read_over::<AttemptForm, 64>(UNTRIED, s, at + 43),
        }
    }

    fn test(s: &[u8], at: usize) -> bool {
        SpanForm::test(s, at)
            & PairForm::test(s, at + 9)
            & HeardForm::test(s, at + 22)
            & OriginForm::test(s, at + 40)
            & lent_fields::test_all::<AttemptForm, 64>(s, at + 43)
            & lent_fields::test_all::<RecordForm, 64>(s, at + 171)
    }

    fn put(s: &mut [u8], at: usize, x: Source) {
        put_front(s, at, x.span, x.missed, x.pair, x.distance);
        HeardForm::put(s, at + 22, x.heard);
        OriginForm::put(s, at + 40, x.origin);
        lent_fields::put_all::<AttemptForm, 64>(s, at + 43, x.attempts);
        lent_fields::put_all::<RecordForm, 64>(s, at + 171, x.names);
    }

    ghost both_ways = { source_codec };
}
