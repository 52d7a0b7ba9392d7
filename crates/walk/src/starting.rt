ghost use Rattle.std.specs.Prelude.{◌≡◌, ◌≤◌, ◌++◌, drop, length, replicate};
ghost use Rattle.walk.specs.Starting.{started, counting};
ghost use Rattle.walk.specs.Lent.{SameBuffers, outcome_in, walk_in};

use crate::{Record, Walk};
use checks::checking::score_good;
use kinds::{Reason, Score};

impl Walk<'_> {
    // State 0 at node 0 waits, and no mark is set.
    #[tactic(auto, unfolding(crate::specs::Starting::started))]
    pub fn start(&mut self, symbols: &[u8], score: Score<'_>) -> Result<Record, Reason>
        ensures same_buffers { SameBuffers self.new self.old }
        ensures started { outcome_in result (counting 0 0 0) self.new ≡ started symbols.now score.entry.words.now score.entry.spans.now (walk_in self.old (counting 0 0 0)) }
    {
        let good = score_good(symbols, score);
        if !good {
            return Err(Reason::BadScore);
        }
        let n = score.words.len();
        if self.waiting.len() / 2 < n {
            return Err(Reason::ShortBuffers);
        }
        if self.log.len() < n {
            return Err(Reason::ShortBuffers);
        }
        if self.marks.len() < n {
            return Err(Reason::ShortBuffers);
        }
        clear(self.marks, n);
        self.waiting[0] = 0;
        self.waiting[1] = 0;
        Ok(Record {
            waiting: 1,
            logged: 0,
            matches: 0,
        })
    }
}

fn clear(marks: &mut [u16], n: usize)
    requires { n ≤ length marks.old }
    ensures { marks.new ≡ replicate n 0 ++ drop n marks.old }
{
    marks[..n].fill(0);
}
