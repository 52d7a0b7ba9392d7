ghost use Rattle.std.specs.Prelude.{◌≡◌};
ghost use Rattle.checks.specs.Again.{shapes_good, score_good};

use contents::reading::{read_score, read_shapes};
use kinds::limits::{BLANK, MOST_SHAPES};
use kinds::slices::equal;
use kinds::{Score, Shapes};
use sections::finding::test_symbols;
use term::spans::spans_are;

// Whether symbols, shape words and starts, each by its whole length, are such as opening accepts and writes (else 19).
pub fn shapes_good(symbols: &[u8], shapes: Shapes<'_>) -> bool
    ensures { result ≡ shapes_good symbols.now shapes.entry.words.now shapes.entry.starts.now }
{
    let known = test_symbols(symbols).is_ok();
    if !known {
        return false;
    }
    let mut firsts = [0u16; MOST_SHAPES];
    match read_shapes(symbols, BLANK, shapes.words, &mut firsts) {
        Err(_) => false,
        Ok(met) => {
            let n = met.number;
            equal(shapes.starts, &firsts[0..n])
        }
    }
}

// Whether score words and spans are such as opening writes for these symbols (else 31).
#[tactic(auto, unfolding(crate::specs::Again::score_good, crate::specs::Again::symbols_good))]
pub fn score_good(symbols: &[u8], score: Score<'_>) -> bool
    ensures { result ≡ score_good symbols.now score.entry.words.now score.entry.spans.now }
{
    test_symbols(symbols).is_ok()
        && read_score(symbols, score.words).is_ok()
        && spans_are(symbols, score.words, score.spans)
}
