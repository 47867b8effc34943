// The archive for a panel's software in C: the calls of the crate panel under C's names, each with that call's own clauses. The C header is
// panel/panel.h at the repository's root, and the archive that its Makefile makes of this is libpanel.a. A buffer comes from C as a pointer and a length.
#![tactic(auto)]

ghost use Rattle.std.specs.Prelude.{◌≡◌};
ghost use Rattle.panel.specs.Answers.{verdict_of, cue_test_of, data_answer, data_output};

// The reader's verdict on a datagram: 0 where it is accepted or is a probe, else 8 to 11.
#[unsafe(no_mangle)]
pub extern "C" fn panel_verdict(bytes: &[u8]) -> u32
    ensures { result ≡ verdict_of bytes.now }
{
    panel::panel_verdict(bytes)
}

// The cue test: 0 where the cue is in range, else 6.
#[unsafe(no_mangle)]
pub extern "C" fn panel_cue_test(cue: &[u8]) -> u32
    ensures { result ≡ cue_test_of cue.now }
{
    panel::panel_cue_test(cue)
}

// Writes a sender's DATA of its cue with a number into the first bytes of `out`: 40, its length, or 1 or 10. The numbers are 64 bits
// wide, so that a host or a cue number that is too large is refused and not cut.
#[unsafe(no_mangle)]
pub extern "C" fn panel_write_data(
    sender: u64,
    number: u64,
    stamp: u64,
    cue: &[u8],
    out: &mut [u8],
) -> u32
    ensures value { result ≡ data_answer sender number stamp cue.now out.old }
    ensures out_after { out.new ≡ data_output sender number stamp cue.now out.old }
{
    panel::panel_write_data(sender, number, stamp, cue, out)
}
