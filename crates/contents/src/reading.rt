ghost use Rattle.std.specs.Prelude.{◌≡◌, ◌≤◌, length};
ghost use Rattle.std.proofs.lemmas.List.Edits.{sets};
ghost use Rattle.contents.specs.Tables.{shape_reason, score_reason, shapes_of, score_of};

use crate::ShapesMet;
use kinds::limits::{MOST_SHAPES, NO_BLANK, SCORE_LEVELS, SCORE_NODES, SHAPE_LEVELS, SHAPE_NODES};
use kinds::{Reason, Refusal};
use term::reader::read_term;
use term::{Fault, Limits, Met};

// Reads shapes back to back, words from `blanks` on being blanks, and writes each one's start once it is whole. A refusal is at a word.
pub fn read_shapes(
    symbols: &[u8],
    blanks: usize,
    words: &[u16],
    starts: &mut [u16],
) -> Result<ShapesMet, Refusal>
    requires { 16 ≤ length starts.old }
    ensures answer { result ≡ (shapes_of symbols.now blanks words.now).answer }
    ensures buffer { starts.new ≡ sets starts.old 0 (shapes_of symbols.now blanks words.now).starts }
{
    if words.is_empty() {
        return Err(Refusal(Reason::Shapes, 0));
    }
    let mut at = 0;
    let mut n = 0;
    let mut depth: usize = 0;
    // A while: the cursor jumps from shape to shape.
    while at < words.len() {
        if n == MOST_SHAPES {
            return Err(Refusal(Reason::Shapes, at));
        }
        let stop = at + SHAPE_NODES;
        let m = match read_term(symbols, words, Limits { blanks, stop }, at, SHAPE_LEVELS) {
            Err((f, p)) => {
                return Err(Refusal(shape_reason(f), p));
            }
            Ok(m) => m,
        };
        if blanks <= words[at] as usize {
            return Err(Refusal(Reason::LoneBlank, at));
        }
        starts[n] = at as u16;
        at = m.end;
        n += 1;
        depth = depth.max(m.depth);
    }
    Ok(ShapesMet { number: n, depth })
}

fn shape_reason(fault: Fault) -> Reason
    ensures { result ≡ shape_reason fault }
{
    match fault {
        Fault::Ends => Reason::ShapeEnds,
        Fault::NoSymbol => Reason::ShapeWord,
        Fault::Many => Reason::ShapeNodes,
        Fault::Deep => Reason::ShapeDepth,
    }
}

// Whether the words are one whole tree without blanks; a refusal is at a word.
#[tactic(auto, unfolding(crate::specs::Tables::score_of))]
pub fn read_score(symbols: &[u8], words: &[u16]) -> Result<Met, Refusal>
    ensures { result ≡ score_of symbols.now words.now }
{
    match read_term(
        symbols,
        words,
        Limits {
            blanks: NO_BLANK,
            stop: SCORE_NODES,
        },
        0,
        SCORE_LEVELS,
    ) {
        Err((f, p)) => Err(Refusal(score_reason(f), p)),
        Ok(m) => {
            if m.end < words.len() {
                return Err(Refusal(Reason::Surplus, m.end));
            }
            Ok(m)
        }
    }
}

fn score_reason(fault: Fault) -> Reason
    ensures { result ≡ score_reason fault }
{
    match fault {
        Fault::Ends => Reason::ScoreEnds,
        Fault::NoSymbol => Reason::ScoreWord,
        Fault::Many => Reason::ScoreNodes,
        Fault::Deep => Reason::ScoreDepth,
    }
}
