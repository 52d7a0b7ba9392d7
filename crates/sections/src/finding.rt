ghost use Rattle.std.specs.Prelude.{◌≡◌, ◌+◌, ◌*◌, ◌<◌, ◌≤◌, length, position, ltb};
ghost use Rattle.std.proofs.lemmas.List.Edits.{sets};
ghost use Rattle.sections.specs.Bytes.{word_at, words_of};
ghost use Rattle.sections.specs.Sections.{distances_of, trailer_of, symbols_of, sections_of};

use crate::Places;
use kinds::limits::{FILE_BYTES, MOST_CHILDREN, MOST_SYMBOLS, TRAILER_BYTES};
use kinds::{Reason, Refusal};

// Tests 1 to 6.
#[tactic(auto, unfolding(crate::specs::Sections::sections_of))]
pub fn find_sections(file: &[u8]) -> Result<Places, Refusal>
    ensures { result ≡ sections_of file.now }
{
    let places = trailer(file)?;
    let s = places.shapes;
    test_symbols(&file[0..s])?;
    Ok(places)
}

// Tests 5 and 6.
#[tactic(auto, unfolding(crate::specs::Sections::symbols_of))]
pub fn test_symbols(symbols: &[u8]) -> Result<(), Refusal>
    ensures { result ≡ symbols_of symbols.now }
{
    if symbols.is_empty() {
        return Err(Refusal(Reason::Symbols, 0));
    }
    if MOST_SYMBOLS < symbols.len() {
        return Err(Refusal(Reason::Symbols, 0));
    }
    match first_over(symbols) {
        Some(i) => Err(Refusal(Reason::Children, i)),
        None => Ok(()),
    }
}

// The first symbol with too many children.
fn first_over(symbols: &[u8]) -> Option<usize>
    ensures { result ≡ position (λ n. ltb MOST_CHILDREN n) symbols.now }
{
    symbols.iter().position(|n| MOST_CHILDREN < *n)
}

// Tests 1 to 4.
#[tactic(auto, unfolding(crate::specs::Sections::trailer_of))]
fn trailer(file: &[u8]) -> Result<Places, Refusal>
    ensures { result ≡ trailer_of file.now }
{
    let n = file.len();
    if n < TRAILER_BYTES {
        return Err(Refusal(Reason::Short, n));
    }
    if FILE_BYTES < n {
        return Err(Refusal(Reason::Long, n));
    }
    if file[n - 2] != 83 || file[n - 1] != 67 {
        return Err(Refusal(Reason::EndBytes, n - 2));
    }
    let a = word(file, n - 8);
    let b = word(file, n - 6);
    let c = word(file, n - 4);
    distances(n - 8, a, b, c)
}

// Test 4: e is the trailer's start.
#[tactic(auto, unfolding(crate::specs::Sections::distances_of))]
fn distances(e: usize, a: usize, b: usize, c: usize) -> Result<Places, Refusal>
    ensures { result ≡ distances_of e a b c }
{
    if a != e || a < b || b < c || b % 2 != 0 || c % 2 != 0 {
        return Err(Refusal(Reason::Trailer, e));
    }
    Ok(Places {
        shapes: e - b,
        score: e - c,
        end: e,
    })
}

// The word at a byte offset, low byte first.
fn word(s: &[u8], at: usize) -> usize
    requires { at + 1 < length s.now }
    ensures { result ≡ word_at s.now at }
{
    u16::from_le_bytes([s[at], s[at + 1]]) as usize
}

// The words of bytes, low byte first, to the start of `words`.
pub fn fill(bytes: &[u8], words: &mut [u16])
    requires { length bytes.now ≤ 2 * length words.old }
    ensures { words.new ≡ sets words.old 0 (words_of bytes.now) }
{
    for (k, pair) in bytes.chunks_exact(2).enumerate() {
        words[k] = u16::from_le_bytes([pair[0], pair[1]]);
    }
}
