// What is said of a call that failed.
use crate::parts::first;
use std::io::{Error, Write};
use std::str;

// No message of the system's is as long.
const MESSAGE_BYTES: usize = 256;

// A line: the program, what failed, and why, in the system's words. Where it cannot be written, nothing more can be said.
pub fn fail(to: &impl Print, program: &str, what: &[u8], error: Error) {
    let mut message = [0u8; MESSAGE_BYTES];
    let n = put_message(error, &mut message);
    let text = str::from_utf8(first(&message, n)).unwrap_or("");
    // The system's number of the error stands behind its words.
    let words = text
        .split_once(" (os error ")
        .map_or(text, |(words, _)| words);
    let _ = print!(to; "{program}: ");
    let _ = to.write_all(what);
    let _ = println!(to; ": {words}");
}

// How many bytes of the buffer it takes.
fn put_message(error: Error, message: &mut [u8]) -> usize {
    let most = message.len();
    let mut rest = message;
    let _ = write!(rest, "{error}");
    most.saturating_sub(rest.len())
}
