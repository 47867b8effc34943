// A message, its cue and the questions that the reader and the writer share. The definitions are in specs/: Cue.antt (a
// cue's fields), Limit.antt and Kind.antt (the limits, the table of kinds and the kind byte), Entry.antt and Message.antt (the layout),
// Question.antt (the questions).
#![tactic(auto)]

ghost use Rattle.std.specs.Prelude.{◌≡◌, cond, ◌∷◌, [], ◌+◌, ◌≤◌, ◌<◌, length, take};
ghost use Rattle.message.specs.Cue.{fields_of, steps_in, steps_at, cue_in, cue_with};
ghost use Rattle.message.specs.Section.{all, rises};
ghost use Rattle.message.specs.Entry.{blank_name, blank_report, blank_echo};
ghost use Rattle.message.specs.Message.{meaning_of};
ghost use Rattle.message.specs.Kind.{row_of, row, is_old, kind_of, number_width, widest_number, most_number, has_counts};
ghost use Rattle.message.specs.Question.{kind_has_counts, name_in, report_in, echo_in, in_range, rule_holds, host_fits, not_from, report_source, echo_host, window_fits, hosts_fit, meaning_questions, first_no, outcome, refusal_of, same_host, blank_message};

// A controller on the network, 0..7.
#[derive(Clone, Copy, Default, PartialEq, Eq)]
pub struct Host(pub u8);

// The number of a cue among those of its source, 0..65535.
#[derive(Clone, Copy, Default, PartialEq, Eq)]
pub struct CueNumber(pub u16);

// A name: a source with a cue number.
#[derive(Clone, Copy, Default, PartialEq, Eq)]
pub struct Name {
    pub source: Host,
    pub number: CueNumber,
}

// A name as a message has it, with a host beside it: who that is goes by the message's kind.
#[derive(Clone, Copy, Default)]
pub struct NameEntry {
    pub name: Name,
    pub host: Host,
}

// A session report: the last cue number that the sender knows of a source.
#[derive(Clone, Copy, Default)]
pub struct Report {
    pub source: Host,
    pub last: CueNumber,
}

// A stamp that the sender heard from a host, and for how many ticks it has held it.
#[derive(Clone, Copy, Default)]
pub struct Echo {
    pub host: Host,
    pub stamp: u64,
    pub held: u64,
}

// How many names, cues, reports and echoes a message has.
#[derive(Clone, Copy, Default)]
pub struct Counts {
    pub names: usize,
    pub cues: usize,
    pub reports: usize,
    pub echoes: usize,
}

// A message. Of the names, reports and echoes the first places are used, as many as the counts say; `cue` is the one place for
// a cue.
// Kept: (a) arrays with their counts beside them, since the product has no heap; and the kind as a number, since the clause `value` of
// writer::write promises the answer 9 to a message of a kind that is none.
#[derive(Clone, Copy)]
pub struct Message {
    pub kind: u8,
    pub sender: Host,
    pub stamp: u64,
    pub counts: Counts,
    pub names: [NameEntry; 2],
    pub cue: [u8; 24],
    pub reports: [Report; 8],
    pub echoes: [Echo; 7],
}

// Document 01's number of the question that was answered no.
#[derive(Clone, Copy)]
pub struct Refusal(pub u8);

// Whether a call was refused, with document 01's number of the question that was answered no. Probe is the reader's alone: no bytes.
#[derive(Clone, Copy)]
pub enum Verdict {
    Accepted,
    Probe,
    Refused(u8),
}

// What the reader answers: the message, or a probe or a refusal beside a message of zeros.
// Kept: (a) the zeros are promised by the clause `value` of reader::read.
#[derive(Clone, Copy)]
pub struct Reading {
    pub verdict: Verdict,
    pub message: Message,
}

// What the writer answers: the length of what it wrote, or a refusal beside 0.
// Kept: (a) the 0 is promised by the clause `value` of writer::write.
#[derive(Clone, Copy)]
pub struct Written {
    pub verdict: Verdict,
    pub len: usize,
}

// The fields of a cue: four offsets in motor steps, and the lamp's power.
#[derive(Clone, Copy)]
pub struct CueFields {
    pub focus: i16,
    pub zoom: i16,
    pub sideways: i16,
    pub upright: i16,
    pub lamp: u16,
}

// Who the host beside a name is.
#[derive(Clone, Copy)]
pub enum HostRule {
    SourceAndSender,
    SenderNotSource,
    NeitherSenderNorSource,
    AnotherOfAnother,
    NoHost,
}

// A row of the table of kinds: how many names and cues a kind's messages have, how many reports and echoes at most, and the rule of the
// host beside a name.
#[derive(Clone, Copy)]
pub struct Row {
    pub names: usize,
    pub cues: usize,
    pub reports: usize,
    pub echoes: usize,
    pub host: HostRule,
}

// Hosts, cue numbers and ticks (clocks, stamps, held ticks) are below these; an output has at least so many bytes.
pub const HOST_LIMIT: u8 = 8;

pub const NUMBER_LIMIT: u32 = 65536;

pub const TICKS_LIMIT: u64 = 281474976710656;

pub const ROOM_NEEDED: usize = 128;

// How many places a message has for names, reports and echoes.
pub const NAME_PLACES: usize = 2;

pub const REPORT_PLACES: usize = 8;

pub const ECHO_PLACES: usize = 7;

// The kinds of messages.
pub const DATA: u8 = 17;

pub const RQST: u8 = 18;

pub const REPL: u8 = 19;

pub const SESS: u8 = 20;

pub const XPRS: u8 = 21;

pub const FTCH: u8 = 22;

pub const LATE: u8 = 23;

pub const ANNC: u8 = 24;

// The old kinds, which are still read: from the first to the last, each so much below the kind that it stands for.
const OLD_FIRST: u8 = 1;

const OLD_LAST: u8 = 4;

const KIND_SHIFT: u8 = 16;

// The greatest cue number in a message of an old kind, and in any other.
const OLD_MOST: u16 = 63;

const MOST: u16 = 65535;

// How many bytes a name and a report have beside their cue number, and a cue and an echo in all.
pub const NAME_HOSTS: usize = 2;

pub const REPORT_HOSTS: usize = 1;

pub const CUE_WIDTH: usize = 24;

pub const ECHO_WIDTH: usize = 13;

impl Row {
    fn new(names: usize, cues: usize, reports: usize, echoes: usize, host: HostRule) -> Row
        ensures { result ≡ row names cues reports echoes host }
    {
        Row {
            names,
            cues,
            reports,
            echoes,
            host,
        }
    }
}

// The table of kinds; a byte that is no kind has no row.
pub fn row_of(kind: u8) -> Option<Row>
    ensures { result ≡ row_of kind }
{
    match kind {
        DATA => Some(Row::new(1, 1, 0, 0, HostRule::SourceAndSender)),
        RQST => Some(Row::new(1, 0, 0, 0, HostRule::SenderNotSource)),
        REPL => Some(Row::new(1, 1, 0, 0, HostRule::NeitherSenderNorSource)),
        SESS => Some(Row::new(0, 0, 8, 7, HostRule::NoHost)),
        XPRS => Some(Row::new(1, 0, 0, 0, HostRule::AnotherOfAnother)),
        FTCH => Some(Row::new(1, 0, 0, 0, HostRule::AnotherOfAnother)),
        LATE => Some(Row::new(1, 1, 0, 0, HostRule::NeitherSenderNorSource)),
        ANNC => Some(Row::new(2, 0, 0, 0, HostRule::SourceAndSender)),
        _ => None,
    }
}

fn is_old(byte: u8) -> bool
    ensures { result ≡ is_old byte }
{
    (OLD_FIRST..=OLD_LAST).contains(&byte)
}

// The kind of a message that starts with this byte.
pub fn kind_of(byte: u8) -> u8
    ensures { result ≡ kind_of byte }
{
    if is_old(byte) {
        byte + KIND_SHIFT
    } else {
        byte
    }
}

// How many bytes a cue number has in a message that starts with this byte.
pub fn number_width(byte: u8) -> usize
    ensures value { result ≡ number_width byte }
    ensures upper_bound { result ≤ widest_number }
{
    if is_old(byte) { 1 } else { 2 }
}

// The greatest cue number in a message that starts with this byte.
fn most_number(byte: u8) -> u16
    ensures { result ≡ most_number byte }
{
    if is_old(byte) { OLD_MOST } else { MOST }
}

// The fields that a cue's bytes hold.
pub fn fields(cue: &[u8; 24]) -> CueFields
    ensures { result ≡ fields_of cue.now }
{
    CueFields {
        focus: numbers::read_i16(cue, 0),
        zoom: numbers::read_i16(cue, 2),
        sideways: numbers::read_i16(cue, 4),
        upright: numbers::read_i16(cue, 6),
        lamp: numbers::read_u16(cue, 8),
    }
}

fn steps_in(z: i16) -> bool
    ensures { result ≡ steps_in z }
{
    (-2000..=2000).contains(&z)
}

fn offset_in(cue: &[u8], at: usize) -> bool
    requires { at + 2 ≤ length cue.now }
    ensures { result ≡ steps_in (steps_at cue.now at) }
{
    steps_in(numbers::read_i16(cue, at))
}

// The cue test: whether a cue's offsets and lamp are in range.
#[tactic(auto, unfolding(crate::specs::Cue::cue_in))]
pub fn cue_in(cue: &[u8; 24]) -> bool
    ensures { result ≡ cue_in cue.now }
{
    offset_in(cue, 0)
        && offset_in(cue, 2)
        && offset_in(cue, 4)
        && offset_in(cue, 6)
        && numbers::read_u16(cue, 8) <= 1000
}

// The cue with these fields and 0 in its free bytes.
pub fn cue_with(focus: i16, zoom: i16, sideways: i16, upright: i16, lamp: u16) -> [u8; 24]
    ensures { result ≡ cue_with (record { focus = focus; zoom = zoom; sideways = sideways; upright = upright; lamp = lamp }) }
{
    let mut cue = [0u8; 24];
    numbers::put_i16(&mut cue, 0, focus);
    numbers::put_i16(&mut cue, 2, zoom);
    numbers::put_i16(&mut cue, 4, sideways);
    numbers::put_i16(&mut cue, 6, upright);
    numbers::put_be(&mut cue, 8, 2, lamp as u64);
    cue
}

fn has_counts(row: Option<Row>, c: Counts) -> bool
    ensures { result ≡ has_counts row c }
{
    row.is_some_and(|r| {
        c.names == r.names && c.cues == r.cues && c.reports <= r.reports && c.echoes <= r.echoes
    })
}

// Question 9: whether a kind has these counts.
pub fn kind_has_counts(kind: u8, c: Counts) -> bool
    ensures { result ≡ kind_has_counts kind c }
{
    has_counts(row_of(kind), c)
}

fn name_in(most: u16, n: NameEntry) -> bool
    ensures { result ≡ name_in most n }
{
    n.name.source.0 < HOST_LIMIT && n.name.number.0 <= most && n.host.0 < HOST_LIMIT
}

fn report_in(most: u16, r: Report) -> bool
    ensures { result ≡ report_in most r }
{
    r.source.0 < HOST_LIMIT && r.last.0 <= most
}

fn echo_in(e: Echo) -> bool
    ensures { result ≡ echo_in e }
{
    e.host.0 < HOST_LIMIT && e.stamp < TICKS_LIMIT && e.held < TICKS_LIMIT
}

// The rule of the host beside a name, by whether that host is the source, whether it is the sender, and whether the source is the sender.
fn rule_holds(rule: HostRule, source: bool, sender: bool, own: bool) -> bool
    ensures { result ≡ rule_holds rule source sender own }
{
    match rule {
        HostRule::SourceAndSender => source && sender,
        HostRule::SenderNotSource => sender && !source,
        HostRule::NeitherSenderNorSource => !sender && !source,
        HostRule::AnotherOfAnother => !sender && !own,
        HostRule::NoHost => false,
    }
}

fn host_fits(kind: u8, sender: Host, n: NameEntry) -> bool
    ensures { result ≡ host_fits kind sender n }
{
    let source = n.name.source;
    row_of(kind).is_some_and(|r| {
        rule_holds(r.host, n.host == source, n.host == sender, source == sender)
    })
}

// The places of an array that are used: as many as the count says, or all where it is beyond them.
fn used<T>(places: &[T], count: usize) -> &[T]
    ensures { result.now ≡ take count places.now }
{
    &places[..count.min(places.len())]
}

fn names_in(most: u16, names: &[NameEntry]) -> bool
    ensures { result ≡ all (name_in most) names.now }
{
    names.iter().all(|n| name_in(most, *n))
}

fn names_fit(kind: u8, sender: Host, names: &[NameEntry]) -> bool
    ensures { result ≡ all (host_fits kind sender) names.now }
{
    names.iter().all(|n| host_fits(kind, sender, *n))
}

fn cues_in(cue: &[u8; 24], count: usize) -> bool
    ensures { result ≡ all cue_in (take count (cue.now ∷ [])) }
{
    count == 0 || cue_in(cue)
}

fn reports_in(most: u16, reports: &[Report]) -> bool
    ensures { result ≡ all (report_in most) reports.now }
{
    reports.iter().all(|r| report_in(most, *r))
}

fn reports_rise(reports: &[Report]) -> bool
    ensures { result ≡ rises report_source reports.now }
{
    reports.is_sorted_by(|r, next| r.source.0 < next.source.0)
}

fn echoes_in(echoes: &[Echo]) -> bool
    ensures { result ≡ all echo_in echoes.now }
{
    echoes.iter().all(|e| echo_in(*e))
}

fn echoes_rise(echoes: &[Echo]) -> bool
    ensures { result ≡ rises echo_host echoes.now }
{
    echoes.is_sorted_by(|e, next| e.host.0 < next.host.0)
}

fn echoes_not_from(sender: Host, echoes: &[Echo]) -> bool
    ensures { result ≡ all (not_from sender) echoes.now }
{
    echoes.iter().all(|e| e.host != sender)
}

// Of two names the second's number is from the first's to 63 above it. The sum is taken in 32 bits, where it fits.
#[tactic(auto, unfolding(crate::specs::Question::window_fits))]
fn window_fits(names: &[NameEntry]) -> bool
    ensures { result ≡ window_fits names.now }
{
    let [trail, lead, ..] = names else {
        return true;
    };
    let low = trail.name.number.0 as u32;
    let high = lead.name.number.0 as u32;
    low <= high && high <= low + 63
}

// Question 10, with the greatest cue number.
#[tactic(auto, unfolding(crate::specs::Question::in_range))]
fn in_range(most: u16, m: Message) -> bool
    ensures { result ≡ in_range most (meaning_of m) }
{
    let c = m.counts;
    m.sender.0 < HOST_LIMIT
        && m.stamp < TICKS_LIMIT
        && names_in(most, used(&m.names, c.names))
        && cues_in(&m.cue, c.cues)
        && reports_in(most, used(&m.reports, c.reports))
        && echoes_in(used(&m.echoes, c.echoes))
}

// Question 11.
#[tactic(auto, unfolding(crate::specs::Question::hosts_fit))]
fn hosts_fit(m: Message) -> bool
    ensures { result ≡ hosts_fit (meaning_of m) }
{
    let names = used(&m.names, m.counts.names);
    let reports = used(&m.reports, m.counts.reports);
    let echoes = used(&m.echoes, m.counts.echoes);
    names_fit(m.kind, m.sender, names)
        && reports_rise(reports)
        && echoes_rise(echoes)
        && echoes_not_from(m.sender, echoes)
        && window_fits(names)
}

// One question: its number where it was answered no. The number 0 is none, and refuses nothing.
pub fn ask(passed: bool, number: u8) -> Result<(), Refusal>
    ensures { result ≡ outcome (cond passed 0 number) }
{
    let refuses = !passed && number != 0;
    if refuses {
        Err(Refusal(number))
    } else {
        Ok(())
    }
}

// Questions 10 and 11, of any message and the byte that said its kind.
pub fn ask_meaning(byte: u8, m: Message) -> Result<(), Refusal>
    ensures { result ≡ outcome (first_no (meaning_questions byte (meaning_of m))) }
{
    ask(in_range(most_number(byte), m), 10)?;
    ask(hosts_fit(m), 11)
}

// ---- messages and refusals made by more than one crate

// The entries of zeros in the places that a message does not use.
pub fn no_name() -> NameEntry
    ensures { result ≡ blank_name }
{
    NameEntry::default()
}

pub fn no_report() -> Report
    ensures { result ≡ blank_report }
{
    Report::default()
}

pub fn no_echo() -> Echo
    ensures { result ≡ blank_echo }
{
    Echo::default()
}

// Whether two hosts are the same.
pub fn same_host(a: Host, b: Host) -> bool
    ensures { result ≡ same_host a b }
{
    a == b
}

// The message of zeros that stands beside a refusal or a probe.
pub fn blank() -> Message
    ensures { result ≡ blank_message }
{
    Message {
        kind: 0,
        sender: Host(0),
        stamp: 0,
        counts: Counts::default(),
        names: [NameEntry::default(); 2],
        cue: [0; 24],
        reports: [Report::default(); 8],
        echoes: [Echo::default(); 7],
    }
}

// One question before others: `number` where it is answered no, else `rest`, the first no of the others (0: none).
pub fn asked(passed: bool, number: u8, rest: u8) -> u8
    ensures { result ≡ cond passed rest number }
{
    if passed { rest } else { number }
}

// Document 01's number of a verdict, 0 where nothing was refused.
pub fn number_of(verdict: Verdict) -> u8
    ensures { result ≡ refusal_of verdict }
{
    match verdict {
        Verdict::Accepted | Verdict::Probe => 0,
        Verdict::Refused(k) => k,
    }
}
