use crate::asking::argument;
use crate::saying::{read, say};
use running::parts::first;
use sections::finding::fill;
use std::fmt;

// As many words as a replacement may have here. A longer one is no score's either.
pub const LINK_WORDS: usize = 32768;

// Why a file is no replacement.
#[derive(Clone, Copy)]
enum LinkError {
    OddBytes,
    TooLong,
}

impl fmt::Display for LinkError {
    fn fmt<W: fmt::Write>(&self, f: &mut fmt::Formatter<W>) -> fmt::Result {
        match self {
            LinkError::OddBytes => write!(f, "an odd number of bytes, and a word has two"),
            LinkError::TooLong => write!(f, "longer than {LINK_WORDS} words"),
        }
    }
}

// The words of the replacement. It says why there are none.
pub fn read_link<'a>(rt: &HostRuntime, words: &'a mut [u16]) -> Option<&'a [u16]> {
    let name = argument(rt, 5);
    let mut bytes = [0u8; 2 * LINK_WORDS];
    let length = read(rt, name.as_bytes(), &mut bytes)?;
    match take_words(first(&bytes, length), length, words) {
        Ok(n) => Some(first(words, n)),
        Err(error) => {
            say(rt, name.as_bytes(), error);
            None
        }
    }
}

// How many words there are. Of a file longer than the buffer there are fewer bytes than its length.
fn take_words(bytes: &[u8], length: usize, words: &mut [u16]) -> Result<usize, LinkError> {
    let n = bytes.len() / 2;
    if bytes.len() < length {
        return Err(LinkError::TooLong);
    }
    if bytes.len() % 2 == 1 {
        return Err(LinkError::OddBytes);
    }
    if words.len() < n {
        return Err(LinkError::TooLong);
    }
    fill(bytes, words);
    Ok(n)
}
