// The calls of a panel's software in C: the reader's verdict, the writer for DATA and the cue test, as plain numbers and byte buffers.
// The crate panel_c exports them; the C header is panel/panel.h at the repository's root. A buffer comes from C as a pointer and a length.
// What they promise is in specs/Answers.antt. They ask nothing of their caller but buffers of the lengths that it says.
// Kept: (a) the answers are numbers, 0 or a refusal, as the header panel.h has them (panel_verdict, panel_cue_test, panel_write_data).
#![tactic(auto)]

ghost use Rattle.std.specs.Prelude.{◌≡◌, length};
ghost use Rattle.message.specs.Entry.{cue_width};
ghost use Rattle.message.specs.Message.{held_as};
ghost use Rattle.panel.specs.Answers.{verdict_of, cue_test_of, own_data, data_answer, data_output};

use message::{
    CUE_WIDTH, Counts, CueNumber, DATA, HOST_LIMIT, Host, Message, NUMBER_LIMIT, Name, NameEntry,
    ROOM_NEEDED,
};

// The 24 bytes of a whole cue.
fn cue_bytes(cue: &[u8]) -> [u8; 24]
    requires { length cue.now ≡ cue_width }
    ensures { result ≡ cue.now }
{
    let mut bytes = [0u8; 24];
    numbers::put_bytes(&mut bytes, 0, cue);
    bytes
}

// A sender's DATA of its cue with a number.
fn own_data(sender: Host, number: CueNumber, stamp: u64, cue: [u8; 24]) -> Message
    ensures { result ≡ held_as (own_data sender.0 number.0 stamp cue) }
{
    let own = NameEntry {
        name: Name {
            source: sender,
            number,
        },
        host: sender,
    };
    Message {
        kind: DATA,
        sender,
        stamp,
        counts: Counts {
            names: 1,
            cues: 1,
            ..Counts::default()
        },
        names: [own, NameEntry::default()],
        cue,
        ..message::blank()
    }
}

// The writer's answer for a DATA that a message can hold.
fn write_data(sender: Host, number: CueNumber, stamp: u64, cue: &[u8], out: &mut [u8]) -> u32
    requires { length cue.now ≡ cue_width }
    ensures value { result ≡ data_answer sender.0 number.0 stamp cue.now out.old }
    ensures out_after { out.new ≡ data_output sender.0 number.0 stamp cue.now out.old }
{
    let message = own_data(sender, number, stamp, cue_bytes(cue));
    let written = writer::write(message, out);
    match message::number_of(written.verdict) {
        0 => written.len as u32,
        refusal => refusal as u32,
    }
}

// The reader's verdict on a datagram: 0 where it is accepted or is a probe, else 8 to 11.
pub fn panel_verdict(bytes: &[u8]) -> u32
    ensures { result ≡ verdict_of bytes.now }
{
    message::number_of(reader::read(bytes).verdict) as u32
}

// The cue test: 0 where the cue is in range, else 6.
pub fn panel_cue_test(cue: &[u8]) -> u32
    ensures { result ≡ cue_test_of cue.now }
{
    if cue.len() != CUE_WIDTH {
        return 6;
    }
    let bytes = cue_bytes(cue);
    if message::cue_in(&bytes) { 0 } else { 6 }
}

// Writes a sender's DATA of its cue with a number into the first bytes of `out`: 40, its length, or 1 or 10. The numbers are 64 bits
// wide, so that a host or a cue number that is too large is refused and not cut.
pub fn panel_write_data(sender: u64, number: u64, stamp: u64, cue: &[u8], out: &mut [u8]) -> u32
    ensures value { result ≡ data_answer sender number stamp cue.now out.old }
    ensures out_after { out.new ≡ data_output sender number stamp cue.now out.old }
{
    let named = (sender < HOST_LIMIT as u64) & (number < NUMBER_LIMIT as u64);
    if named & (cue.len() == CUE_WIDTH) {
        return write_data(
            Host(sender as u8),
            CueNumber(number as u16),
            stamp,
            cue,
            out,
        );
    }
    if out.len() < ROOM_NEEDED { 1 } else { 10 }
}
