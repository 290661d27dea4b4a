// What is told on standard error of a call that failed.
use std::io::{Error, Write};

// The most bytes of what an error says.
const SAID_MOST: usize = 128;

// Tells in one line what could not be done, and why.
pub fn tell(rt: &impl Eprint, what: &str, error: Error) {
    let mut said = [0u8; SAID_MOST];
    let mut room = &mut said[..];
    let _ = write!(room, "{error}");
    let reason = reason_in(&said);
    let _ = eprintln!(rt; "fieldlist: cannot {what}: {reason}");
}

// The words of an error, without its number behind them.
fn reason_in(said: &[u8]) -> &str {
    match str::from_utf8(said) {
        Ok(text) => match text.find(" (os error ") {
            Some(end) => &text[..end],
            None => text.trim_end_matches('\0'),
        },
        Err(_) => "",
    }
}
