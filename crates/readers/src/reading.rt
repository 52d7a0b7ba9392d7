ghost use Rattle.std.specs.Prelude.{◌≡◌};
ghost use Rattle.readers.specs.PlanParts.{view_good, label_of, lengths_of, announcement_of, successor_of, pair_in};
ghost use Rattle.readers.specs.BlockWords.{pair_of};

use crate::Lengths;
use crate::pairs::pair_at;
use crate::parts::{block_start, counts_good, middle, state_label};
use kinds::{Position, Reason, Shape, State, Symbol};

pub fn label_of(words: &[u16], states: u16, symbols: u16, state: State) -> Result<Position, Reason>
    ensures { result ≡ label_of words.now states symbols state.0 }
{
    let good = view_good(words, states, symbols);
    if !good {
        return Err(Reason::OutOfRange);
    }
    match state_label(words, states, state) {
        Err(why) => Err(Reason::OutOfRange),
        Ok(p) => {
            let used = p.is_good();
            if !used {
                return Err(Reason::OutOfRange);
            }
            Ok(p)
        }
    }
}

pub fn lengths_of(
    words: &[u16],
    states: u16,
    symbols: u16,
    state: State,
    symbol: Symbol,
) -> Result<Lengths, Reason>
    ensures { result ≡ lengths_of words.now states symbols state.0 symbol.0 }
{
    let good = view_good(words, states, symbols);
    if !good {
        return Err(Reason::OutOfRange);
    }
    match block_start(words, states, symbols, state, symbol) {
        None => Err(Reason::OutOfRange),
        Some(b) => {
            let mid = middle(words, b);
            Ok(Lengths {
                announcements: words[b] as usize,
                successors: words[mid] as usize,
            })
        }
    }
}

// Announcement i of a block.
pub fn announcement_of(
    words: &[u16],
    states: u16,
    symbols: u16,
    state: State,
    symbol: Symbol,
    i: usize,
) -> Result<(Shape, Position), Reason>
    ensures { result ≡ announcement_of words.now states symbols state.0 symbol.0 i }
{
    match find_pair(words, states, symbols, state, symbol, false, i) {
        None => Err(Reason::OutOfRange),
        Some((j, p)) => Ok((Shape(j), p)),
    }
}

// Successor i of a block.
pub fn successor_of(
    words: &[u16],
    states: u16,
    symbols: u16,
    state: State,
    symbol: Symbol,
    i: usize,
) -> Result<(State, Position), Reason>
    ensures { result ≡ successor_of words.now states symbols state.0 symbol.0 i }
{
    match find_pair(words, states, symbols, state, symbol, true, i) {
        None => Err(Reason::OutOfRange),
        Some((s, p)) => Ok((State(s), p)),
    }
}

// Pair i of a block's announcements, or of its successors.
fn find_pair(
    words: &[u16],
    states: u16,
    symbols: u16,
    state: State,
    symbol: Symbol,
    nexts: bool,
    i: usize,
) -> Option<(u16, Position)>
    ensures { pair_of result ≡ pair_in nexts words.now states symbols state.0 symbol.0 i }
{
    let good = view_good(words, states, symbols);
    if !good {
        return None;
    }
    let b = block_start(words, states, symbols, state, symbol)?;
    if nexts {
        return pair_at(words, middle(words, b), states, i);
    }
    pair_at(words, b, words[2], i)
}

// The counts are the header's, and in range.
fn view_good(words: &[u16], states: u16, symbols: u16) -> bool
    ensures { result ≡ view_good words.now states symbols }
{
    counts_good(words) && states == words[0] && symbols == words[1]
}
