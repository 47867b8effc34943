// Walks the calendar from its first day to its last, a roll at a time, and prints every month's last day, 29 February among them, with the
// day after it. The stored output is Python's: twin/calendar.py.
#![tactic(auto)]

use calendar::Date;
use std::io;

// A date and the day after it, in a line, where a month or the calendar ends there.
fn show(rt: &impl Print, d: Date, next: Date) -> io::Result<()> {
    if (next.day == 1) | (next.day == d.day) {
        let mut out = [0u8; 22];
        let n = entries::put_days(&mut out, d, next);
        rt.write_all(&out[..n])?;
    }
    Ok(())
}

fn main(rt: HostRuntime) -> io::Result<()> {
    let mut d = Date::FIRST;
    for _ in 0..36525 {
        let next = calendar::day_after(d);
        show(&rt, d, next)?;
        d = next;
    }
    Ok(())
}
