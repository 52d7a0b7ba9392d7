ghost use Rattle.std.specs.Prelude.{◌≡◌, ◌≤◌, length};
ghost use Rattle.counting.specs.Counting.{total, matches_of};
ghost use Rattle.counting.specs.Passing.{long_of};

use checks::checking::score_good;
use kinds::{Reason, Score};

// The number of matches: the ones in the first n marks.
pub fn matches(symbols: &[u8], score: Score<'_>, marks: &[u16]) -> Result<usize, Reason>
    ensures { result ≡ matches_of symbols.now score.entry.words.now score.entry.spans.now marks.now }
{
    let n = looked_at(symbols, score, marks)?;
    Ok(ones_of(&marks[0..n]))
}

// How many marks are looked at, one for each node of a good score.
pub fn looked_at(symbols: &[u8], score: Score<'_>, marks: &[u16]) -> Result<usize, Reason>
    ensures { result ≡ long_of symbols.now score.entry.words.now score.entry.spans.now marks.now }
{
    if score_good(symbols, score) {
        let n = score.words.len();
        if marks.len() < n {
            return Err(Reason::ShortBuffers);
        }
        return Ok(n);
    }
    Err(Reason::BadScore)
}

// The ones of all marks.
fn ones_of(marks: &[u16]) -> usize
    requires { length marks.now ≤ 65536 }
    ensures { result ≡ total marks.now }
{
    marks.iter().map(|mark| mark.count_ones() as usize).sum()
}
