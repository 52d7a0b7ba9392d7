ghost use Rattle.std.specs.Prelude.{◌≡◌, ◌+◌, ◌≤◌};
ghost use Rattle.term.specs.Reading.{limits};
ghost use Rattle.checks.specs.Again.{piece_at, subtree_at};

use crate::Asked;
use kinds::limits::{BLANK, NO_BLANK, SCORE_LEVELS, SCORE_NODES, SHAPE_LEVELS, SHAPE_NODES};
use sections::finding::test_symbols;
use term::Limits;
use term::reader::read_term;

// The words of the subtree asked for, as a part of its table; no words where none stands there within that table's limits.
pub fn subtree<'a>(asked: Asked, symbols: &[u8], shapes: &'a [u16], score: &'a [u16]) -> &'a [u16]
    ensures { result.now ≡ subtree_at asked symbols.now shapes.now score.now }
{
    match test_symbols(symbols) {
        Err(why) => {
            return &shapes[0..0];
        }
        Ok(()) => {}
    }
    match asked {
        Asked::Shapes(at) => piece(symbols, shapes, BLANK, SHAPE_NODES, SHAPE_LEVELS, at),
        Asked::Score(node) => piece(
            symbols,
            score,
            NO_BLANK,
            SCORE_NODES,
            SCORE_LEVELS,
            node.0 as usize,
        ),
    }
}

// The words of the term at `at`; no words where none stands there of at most so many nodes and levels.
fn piece<'a>(
    symbols: &[u8],
    words: &'a [u16],
    blanks: usize,
    nodes: usize,
    levels: usize,
    at: usize,
) -> &'a [u16]
    requires { nodes ≤ 65535 }
    ensures { result.now ≡ piece_at symbols.now words.now (limits blanks (at + nodes)) levels at }
{
    if words.len() <= at {
        return &words[0..0];
    }
    match read_term(
        symbols,
        words,
        Limits {
            blanks: blanks,
            stop: at + nodes,
        },
        at,
        levels,
    ) {
        Err(why) => &words[0..0],
        Ok(m) => {
            let e = m.end;
            &words[at..e]
        }
    }
}
