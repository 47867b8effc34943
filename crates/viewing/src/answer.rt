// The answers of the calls in words, as house prints them.
use answers::Shown;
use end::Answer;
use message::Host;
use picture::text::Text;

// An answer as it is shown, where the next message has this number and the output starts with this focus.
fn shown(a: Answer, message: u64, focus: i16) -> Shown {
    match a {
        Answer::Refused(question) => Shown::Refused(question),
        Answer::Out(_) => Shown::Out(message),
        Answer::Got(name) => Shown::Got(name, focus),
        Answer::Done => Shown::Done,
        Answer::Ignored => Shown::Ignored,
        Answer::Nothing => Shown::Nothing,
        Answer::Clash(name) => Shown::Clash(name),
        Answer::Late(name) => Shown::Late(name, focus),
        Answer::Exhausted => Shown::Exhausted,
    }
}

// `PLACE CLOCK ANSWER`, with no line feed behind it.
pub fn put(text: &mut Text, place: Host, clock: u64, a: Answer, message: u64, focus: i16) {
    let mut line = [0u8; 56];
    let len = answers::put_line(&mut line, 0, place, clock, shown(a, message, focus));
    if let Some(front) = line[..len].strip_suffix(b"\n") {
        text.extend(front);
    }
}
