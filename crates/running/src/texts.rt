ghost use Rattle.std.specs.Prelude.{◌≡◌, ◌↔◌, Contains, IsTrue, length, take};

use crate::parts::{Entry, first};

// The bytes before the first `end`; all where there is none.
pub fn before(text: &[u8], end: u8) -> &[u8] {
    split(text, end).map_or(text, |(before, _)| before)
}

// The bytes behind the first `end`; none where there is none.
pub fn behind(text: &[u8], end: u8) -> &[u8] {
    split(text, end).map_or(&[], |(_, behind)| behind)
}

fn split(text: &[u8], end: u8) -> Option<(&[u8], &[u8])> {
    let n = text.iter().position(|byte| *byte == end)?;
    Some((&text[..n], &text[n + 1..]))
}

// The field of that number, each with a `|` behind it; no bytes where there are not as many.
pub fn field(line: &[u8], i: usize) -> &[u8] {
    line.split(|byte| *byte == b'|').nth(i).unwrap_or(&[])
}

pub fn has(text: &[u8], byte: u8) -> bool
    ensures { IsTrue result ↔ Contains text.now byte }
{
    text.contains(&byte)
}

pub fn begins(text: &[u8], word: &[u8]) -> bool
    ensures { IsTrue result ↔ (take (length word.now) text.now ≡ word.now) }
{
    text.starts_with(word)
}

pub fn same(a: &[u8], b: &[u8]) -> bool
    ensures { IsTrue result ↔ (a.now ≡ b.now) }
{
    a == b
}

// The number that the digits among a text's bytes write.
pub fn value_of(text: &[u8]) -> usize {
    let mut value: usize = 0;
    for byte in text {
        if byte.is_ascii_digit() && value <= 65535 {
            value = value * 10 + usize::from(*byte - b'0');
        }
    }
    value
}

// The same as a word.
pub fn word_of(text: &[u8]) -> u16 {
    u16::of(value_of(text))
}

// The numbers of a text, with spaces between, as words: as many as fit.
pub fn numbers_in<'a>(text: &[u8], words: &'a mut [u16]) -> &'a [u16] {
    let mut n: usize = 0;
    for digits in text.split(|byte| *byte == b' ') {
        if !digits.is_empty() && n < words.len() {
            words[n] = word_of(digits);
            n += 1;
        }
    }
    first(words, n)
}
