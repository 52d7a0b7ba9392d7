#![tactic(auto)]

ghost use Rattle.std.specs.Prelude.{◌≡◌};
ghost use Rattle.clashing.specs.Clashing.{clashes_of};
ghost use Rattle.totals.specs.Totalled.{states_by, matches_by, totalled};

use bufferstone::{Counts, Reason, Record, Score, Shapes, Size, Totals, clashes};

// What made the marks: a walk by a plan of this size that ended with this record, or comparing, which found so many matches.
#[derive(Clone, Copy)]
pub enum Made {
    Walk(Size, Record),
    Comparing(usize),
}

// What opening counted, the states and the matches of what made the marks, and the clashes in them.
pub fn count(
    counts: Counts,
    made: Made,
    symbols: &[u8],
    shapes: Shapes<'_>,
    score: Score<'_>,
    marks: &[u16],
) -> Result<Totals, Reason>
    ensures { result ≡ totalled counts made (clashes_of symbols.now shapes.entry.words.now shapes.entry.starts.now score.entry.words.now score.entry.spans.now marks.now) }
{
    let clashes = clashes(symbols, shapes, score, marks)?;
    Ok(Totals {
        nodes: counts.nodes,
        states: made.states(),
        matches: made.matches(),
        clashes,
        depth: counts.depth,
    })
}

impl Made {
    fn states(self) -> Option<usize>
        ensures { result ≡ states_by self }
    {
        match self {
            Made::Walk(size, _) => Some(size.states),
            Made::Comparing(_) => None,
        }
    }

    fn matches(self) -> usize
        ensures { result ≡ matches_by self }
    {
        match self {
            Made::Walk(_, end) => end.matches,
            Made::Comparing(some) => some,
        }
    }
}
