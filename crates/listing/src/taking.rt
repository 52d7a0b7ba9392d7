ghost use Rattle.std.specs.Prelude.{◌≡◌};
ghost use Rattle.walk.specs.Lent.{SameBuffers, walk_in};
ghost use Rattle.listing.specs.Listing.{list_outcome_in, listed};

use crate::Taken;
use kinds::{Reason, Score};
use walk::{Record, Walk};

// Takes the items chosen, in order, and stops at the first choice that is refused.
pub fn steps(
    walk: &mut Walk<'_>,
    plan: &[u16],
    score: Score<'_>,
    record: Record,
    choices: &[u16],
) -> Result<Taken, (Reason, Taken)>
    ensures same_buffers { SameBuffers walk.new walk.old }
    ensures listed { list_outcome_in result walk.new ≡ listed plan.now score.entry.words.now score.entry.spans.now choices.now (walk_in walk.old «record») }
{
    let mut last = record;
    for i in 0..choices.len() {
        let choice = choices[i] as usize;
        last = walk
            .step(plan, score, last, choice)
            .map_err(|why| (why, Taken(i, last)))?;
    }
    Ok(Taken(choices.len(), last))
}
