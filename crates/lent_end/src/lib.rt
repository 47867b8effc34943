// An end as 31,136 bytes: written, read and tested. The layout is in specs/State.antt; that every end has exactly one form, and that bytes which
// pass the test are written as they were, is proofs/StateLaws.antt.
#![tactic(auto)]

ghost use Rattle.std.specs.Prelude.{◌≡◌, ◌+◌, ◌≤◌, length};
ghost use Rattle.layout.specs.Puts.{Puts};
ghost use Rattle.lent_end.specs.State.{params_from, params_bytes, ParamsFit, status_of, status_number, head_bytes, HeadFits, state_width, end_from, is_state, end_bytes, Holds};

use end::{End, Params, Status};
use lent_fields::{
    put_all, put1, put2, put4, put8, read_all, read1, read2, read4, read8, test_all,
};
use lent_source::SourceForm;
use message::Host;

pub const STATE: usize = 31136;

// The first two bytes: CE, and the layout's version 01.
const MARK: u16 = 52737;

fn get_params(s: &[u8], at: usize) -> Params
    requires { at + 56 ≤ length s.now }
    ensures { result ≡ params_from s.now at }
{
    Params {
        c1: read8(s, at),
        c2: read8(s, at + 8),
        c3: read8(s, at + 16),
        d1: read8(s, at + 24),
        d2: read8(s, at + 32),
        d3: read8(s, at + 40),
        express: read8(s, at + 48),
    }
}

fn put_params(s: &mut [u8], at: usize, p: Params)
    requires { at + 56 ≤ length s.old }
    ensures puts { Puts at 56 (params_bytes p) s.old s.new }
    ensures params_fit { ParamsFit p }
{
    put8(s, at, p.c1);
    put8(s, at + 8, p.c2);
    put8(s, at + 16, p.c3);
    put8(s, at + 24, p.d1);
    put8(s, at + 32, p.d2);
    put8(s, at + 40, p.d3);
    put8(s, at + 48, p.express);
}

fn status_of(tag: u8) -> Status
    ensures { result ≡ status_of tag }
{
    match tag {
        0 => Status::Idle,
        1 => Status::Joining,
        2 => Status::Member,
        3 => Status::Leaving,
        _ => Status::Crashed,
    }
}

pub fn status_number(status: Status) -> u8
    ensures { result ≡ status_number status }
{
    match status {
        Status::Idle => 0,
        Status::Joining => 1,
        Status::Member => 2,
        Status::Leaving => 3,
        Status::Crashed => 4,
    }
}

// Whether the bytes are those of an end.
pub fn is_state(s: &[u8]) -> bool
    ensures { result ≡ is_state s.now }
{
    if s.len() != STATE {
        return false;
    }
    let sources = test_all::<SourceForm, 8>(s, 72);
    (read2(s, 0) == MARK) & (read1(s, 67) <= 4) & sources
}

pub fn get_end(s: &[u8]) -> End
    requires { length s.now ≡ state_width }
    ensures { result ≡ end_from s.now }
{
    End {
        host: Host(read1(s, 2)),
        params: get_params(s, 3),
        clock: read8(s, 59),
        status: status_of(read1(s, 67)),
        next: read4(s, 68),
        sources: read_all::<SourceForm, 8>(s, 72),
    }
}

fn put_head(s: &mut [u8], host: u8, params: Params, clock: u64, status: u8, next: u32)
    requires { 72 ≤ length s.old }
    ensures puts { Puts 0 72 (head_bytes host params clock status next) s.old s.new }
    ensures head_fits { HeadFits host params clock status next }
{
    put2(s, 0, MARK);
    put1(s, 2, host);
    put_params(s, 3, params);
    put8(s, 59, clock);
    put1(s, 67, status);
    put4(s, 68, next);
}

pub fn put_end(s: &mut [u8], e: End)
    requires { length s.old ≡ state_width }
    ensures { Holds s.new e }
{
    put_head(
        s,
        e.host.0,
        e.params,
        e.clock,
        status_number(e.status),
        e.next,
    );
    put_all::<SourceForm, 8>(s, 72, e.sources);
}
