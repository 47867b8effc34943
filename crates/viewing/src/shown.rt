// What is shown of a display: its losses, its state and its output.
use crate::screen::FILLING;
use display::Display;
use display_window::Lost;
use picture::text::{Hex, Text};

// `; lost` and the numbers, where there are any: place i of the set stands for trail + i.
pub fn lost(text: &mut Text, lost: &Lost) {
    if lost.set == 0 && lost.above.is_none() {
        return;
    }
    text.extend(b"; lost");
    let trail = u64::from(lost.trail.0);
    for i in 0..64u64 {
        if (lost.set >> i) % 2 == 1 {
            write!(text, " {}", trail + i);
        }
    }
    if let Some(span) = lost.above {
        write!(text, " {}..{}", span.first.0, span.last.0);
    }
}

// The state of the display.
pub fn display(text: &mut Text, d: &Display) {
    write!(
        text,
        "2 own {} sender {} clock {}",
        d.own.0, d.sender.0, d.clock
    );
    match d.window {
        Some(w) => write!(text, " trail {} lead {} set {}", w.trail.0, w.lead.0, w.set),
        None => text.extend(b" unstarted"),
    }
}

// `; OUTPUT`, as far as the last answer accounts for it, and whether the rest was changed.
pub fn output(text: &mut Text, out: &[u8; 200], last: usize) {
    let (front, rest) = out.split_at(last.min(200));
    write!(text, "; {}", Hex(front));
    // Every byte is compared, so that many are at once; to stop at the first other one takes longer than all.
    let mut is_filled = true;
    for b in rest {
        is_filled &= *b == FILLING;
    }
    if !is_filled {
        text.extend(b" CHANGED");
    }
}
