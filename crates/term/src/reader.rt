ghost use Rattle.std.specs.Prelude.{◌≡◌};
ghost use Rattle.term.specs.Reading.{children_of, head_of, reading};

use crate::{Fault, Limits, Met};

// The term that starts at `at`, at most `left` levels deep: what it was met with, or its first fault in preorder.
pub fn read_term(
    symbols: &[u8],
    words: &[u16],
    limits: Limits,
    at: usize,
    left: usize,
) -> Result<Met, (Fault, usize)>
    ensures { result ≡ reading symbols.now words.now limits left at }
{
    let n = match head(symbols, words, limits, at) {
        Err(fault) => return Err((fault, at)),
        Ok(n) => n,
    };
    if left == 0 {
        return Err((Fault::Deep, at));
    }
    let mut here = at + 1;
    let mut depth: usize = 0;
    for _ in 0..n {
        // A match where `?` would serve: the edit `parents_place` writes within it.
        let child = match read_term(symbols, words, limits, here, left - 1) {
            Err((f, p)) => return Err((f, p)),
            Ok(child) => child,
        };
        here = child.end;
        depth = depth.max(child.depth + 1);
    }
    Ok(Met { end: here, depth })
}

// The tests at one node that need no depth, in their order; then the number of its children.
#[tactic(auto, unfolding(crate::specs::Reading::head_of))]
fn head(symbols: &[u8], words: &[u16], limits: Limits, at: usize) -> Result<usize, Fault>
    ensures { result ≡ head_of symbols.now words.now limits at }
{
    if words.len() <= at {
        return Err(Fault::Ends);
    }
    let n = children(symbols, limits.blanks, words[at])?;
    if limits.stop <= at {
        return Err(Fault::Many);
    }
    Ok(n)
}

// How many children a word has: a blank none, a symbol as many as its count says.
#[tactic(auto, unfolding(crate::specs::Reading::children_of))]
fn children(symbols: &[u8], blanks: usize, word: u16) -> Result<usize, Fault>
    ensures { result ≡ children_of symbols.now blanks word }
{
    let w = word as usize;
    if blanks <= w {
        return Ok(0);
    }
    if symbols.len() <= w {
        return Err(Fault::NoSymbol);
    }
    Ok(symbols[w] as usize)
}
