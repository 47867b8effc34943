// The parts of an end as plain numbers, from which the digest, the comparison and the words are all made.
use crate::text::Numbers;
use end::{Attempt, Params, Record, Reply, Request, Slot, Source};

pub fn params(p: Params) -> Numbers<7> {
    Numbers([p.c1, p.c2, p.c3, p.d1, p.d2, p.d3, p.express])
}

pub fn span(s: &Source) -> Option<Numbers<2>> {
    let (first, last) = s.span?;
    Some(Numbers([u64::from(first.0), u64::from(last.0)]))
}

// Requester, sender, number.
pub fn pair(s: &Source) -> Option<Numbers<3>> {
    let (requester, sender, number) = s.pair?;
    let hosts = (u64::from(requester.0), u64::from(sender.0));
    Some(Numbers([hosts.0, hosts.1, u64::from(number.0)]))
}

// Stamp, when, and a bit for each source that the heard message reported.
pub fn heard(s: &Source) -> Option<Numbers<3>> {
    let (stamp, when, reported) = s.heard?;
    Some(Numbers([stamp, when, u64::from(reported)]))
}

pub fn origin(s: &Source) -> Option<Numbers<1>> {
    let number = s.origin?;
    Some(Numbers([u64::from(number.0)]))
}

// Due, requester.
pub fn reply(r: Reply) -> Option<Numbers<2>> {
    let (due, requester) = r?;
    Some(Numbers([due, u64::from(requester.0)]))
}

pub fn request(q: Request) -> Numbers<3> {
    Numbers([u64::from(q.round), q.due, q.quiet])
}

// A bit for each host that was tried, and 0 or 1 for Late.
pub fn attempt(a: Attempt) -> Numbers<2> {
    Numbers([u64::from(a.tried), u64::from(a.late)])
}

// Whether a record is as an opened end has it.
pub fn is_blank(r: &Record) -> bool {
    matches!(r.slot, Slot::Empty) && r.cue == [0; 24] && r.hush == 0
}
