// The reason call: why an event would be ignored, in words. It is asked before every event, and by a line of its own, `END why EVENT`.
use crate::Desk;
use end::{End, Reason, Why};
use picture::text::Text;
use trace::Cursor;

// A reason's words, as document 02 has them.
fn reason_words(r: Reason) -> &'static str {
    match r {
        Reason::Crashed => "crashed",
        Reason::WrongStatus => "wrong status",
        Reason::OwnMessage => "own message",
        Reason::NotOpen => "source not open",
        Reason::BelowFirst => "below first",
        Reason::OwnAboveLast => "own number above last",
        Reason::AlreadyHeld => "already held",
        Reason::ReplyWaiting => "reply waiting",
        Reason::ReplyQuiet => "reply-quiet",
        Reason::RequestQuiet => "request quiet",
        Reason::NoFetch => "no fetch",
    }
}

// What the reason call gave, in words.
pub fn put(text: &mut Text, why: Why) {
    match why {
        Why::Refused(question) => write!(text, "refused {question}"),
        Why::Because(r) => write!(text, "{}", reason_words(r)),
        Why::NoReason => write!(text, "none"),
    }
}

impl Desk {
    // `END why EVENT`: the end stays.
    pub fn why(&mut self, e: &End, line: &mut Cursor<'_>) -> Option<()> {
        let said = self.said(line.word()?, line)?;
        self.begin();
        put(&mut self.text, said.why(e));
        self.end_answer();
        Some(())
    }
}
