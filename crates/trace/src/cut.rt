// What a line says beside its call: the expectation and the remark.

// A line without its remark: the call, and where an answer is expected, its words.
#[derive(Clone, Copy)]
pub struct Parts<'a> {
    pub call: &'a [u8],
    pub expected: Option<&'a [u8]>,
}

// What stands before and behind the first of such marks, where there is one.
fn split_once<'a>(text: &'a [u8], mark: &[u8; 3]) -> Option<(&'a [u8], &'a [u8])> {
    let at = text.windows(3).position(|w| w == mark.as_slice())?;
    let (before, rest) = text.split_at_checked(at)?;
    Some((before, rest.strip_prefix(mark)?))
}

pub fn cut(line: &[u8]) -> Parts<'_> {
    let said = match split_once(line, b" | ") {
        Some((said, _)) => said,
        None => line,
    };
    match split_once(said, b" = ") {
        Some((call, expected)) => Parts {
            call,
            expected: Some(expected),
        },
        None => Parts {
            call: said,
            expected: None,
        },
    }
}
