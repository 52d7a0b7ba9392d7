ghost use Rattle.std.specs.Prelude.{◌≡◌, true, ◌*◌, ◌<◌, ◌≤◌, length};
ghost use Rattle.std.proofs.Math.Option.{some};
ghost use Rattle.readers.specs.PlanParts.{counts_good};
ghost use Rattle.walk.specs.Lent.{SameBuffers, outcome_in, walk_in};
ghost use Rattle.walk.specs.Stepping.{stepped};
ghost use Rattle.walk.specs.ByIndex.{head_of, look_head, leads_fine, record_fits, Taking, room_left, sighted, sight_of};
ghost use Rattle.readers.specs.BlockWords.{block_fits};

use crate::{Record, Seen, Walk};
use following::positions::follow;
use kinds::limits::NUMBERED_NODES;
use kinds::{Node, Reason, Score, State, Symbol};
use queue::aiming::fine_pairs;
use queue::queueing::{append_pairs, close_up, mark_pairs};
use readers::parts::{block_start, counts_good, middle, state_label};

// Where more score words are lent, the matches are counted up to sixteen times this.
const COUNTED_NODES: usize = 0x0800000000000000;

impl Walk<'_> {
    // Takes item `choice`. All is decided before the first word is written.
    #[tactic(auto, unfolding(crate::specs::Stepping::stepped))]
    pub fn step(
        &mut self,
        plan: &[u16],
        score: Score<'_>,
        record: Record,
        choice: usize,
    ) -> Result<Record, Reason>
        ensures same_buffers { SameBuffers self.new self.old }
        ensures stepped { outcome_in result «record» self.new ≡ stepped plan.now score.entry.words.now score.entry.spans.now choice (walk_in self.old «record») }
    {
        if record.waiting <= choice {
            return Err(Reason::NoSuchItem);
        }
        match self.look(plan, score, record, choice) {
            None => Err(Reason::OutOfRange),
            Some(at) => self.advance(plan, score, at, record, choice),
        }
    }

    // Decides whether item `choice` can be taken.
    #[tactic(auto, unfolding(crate::specs::ByIndex::sighted))]
    fn look(&self, plan: &[u16], score: Score<'_>, record: Record, choice: usize) -> Option<Seen>
        requires { choice < «record».waiting }
        ensures { sight_of result ≡ sighted plan.now score.entry.words.now score.entry.spans.now self.now.waiting.now (length self.now.log.now) (length self.now.marks.now) «record» choice }
    {
        let fits = record_fits(self.waiting.len(), score.words.len(), record);
        if !fits {
            return None;
        }
        let state = State(self.waiting[2 * choice]);
        let from = Node(self.waiting[2 * choice + 1]);
        let (node, block) = find_head(plan, score, state, from)?;
        let good = leads_fine(plan, score, from, block, self.marks.len());
        if !good {
            return None;
        }
        let room = room_left(plan, block, self.waiting.len(), self.log.len(), record);
        if !room {
            return None;
        }
        Some(Seen { from, node, block })
    }

    // Writes all that a step writes, once nothing stands against it.
    #[tactic(auto, unfolding(crate::specs::ByIndex::sighted, crate::specs::ByIndex::record_fits, crate::specs::ByIndex::room_left))]
    fn advance(
        &mut self,
        plan: &[u16],
        score: Score<'_>,
        at: Seen,
        record: Record,
        choice: usize,
    ) -> Result<Record, Reason>
        requires sighted { sighted plan.now score.words.now score.spans.now self.old.waiting.now (length self.old.log.now) (length self.old.marks.now) «record» choice ≡ some (at.from.0, at.node.0, at.block) }
        requires waits { choice < «record».waiting }
        ensures same_buffers { SameBuffers self.new self.old }
        ensures stepped { outcome_in result «record» self.new ≡ stepped plan.now score.entry.words.now score.entry.spans.now choice (walk_in self.old «record») }
    {
        let b = at.block;
        let mid = middle(plan, b);
        let outs = plan[b] as usize;
        let nexts = plan[mid] as usize;
        let count = record.waiting;
        let logged = record.logged;
        let waits = count - 1 + nexts;
        let read = logged + 1;
        let node = at.node;
        let from = at.from;
        self.log[logged] = node.0;
        let nodes = score.words.len();
        let spans = score.spans;
        let new = mark_pairs(plan, nodes, spans, self.marks, from, b + 1, outs);
        close_up(self.waiting, 2 * choice, 2 * count);
        let end = 2 * count - 2;
        append_pairs(plan, nodes, spans, self.waiting, from, mid + 1, nexts, end);
        let marked = record.matches + new;
        Ok(Record {
            waiting: waits,
            logged: read,
            matches: marked,
        })
    }
}

// The items waiting lie in so many words, and so many nodes may have the matches counted.
#[tactic(auto, unfolding(crate::specs::ByIndex::record_fits))]
fn record_fits(items: usize, nodes: usize, record: Record) -> bool
    ensures value { result ≡ record_fits items nodes «record» }
    ensures lent { result ≡ true → 2 * «record».waiting ≤ items }
{
    record.waiting <= items / 2 && record.matches <= 16 * nodes.min(COUNTED_NODES)
}

// The node that an item reads, and the block of its state and the symbol there.
#[tactic(auto, unfolding(crate::specs::ByIndex::look_head))]
fn find_head(plan: &[u16], score: Score<'_>, state: State, from: Node) -> Option<(Node, usize)>
    ensures { head_of result ≡ look_head plan.now score.entry.words.now score.entry.spans.now (state.0, from.0) }
{
    let good = counts_good(plan);
    if !good {
        return None;
    }
    let states = plan[0];
    let symbols = plan[1];
    let by = state_label(plan, states, state).ok()?;
    let node = follow(score.spans, score.words.len(), from, by)?;
    let symbol = Symbol(score.words[node.0 as usize]);
    let block = block_start(plan, states, symbols, state, symbol)?;
    Some((node, block))
}

// Each announcement of the block is a shape's and leads to a mark, each successor is a state's and leads to a node.
#[tactic(auto, unfolding(crate::specs::ByIndex::leads_fine))]
fn leads_fine(plan: &[u16], score: Score<'_>, from: Node, b: usize, marks: usize) -> bool
    requires { (counts_good plan.now ≡ true) × (block_fits plan.now b ≡ true) }
    ensures { result ≡ leads_fine plan.now (length score.entry.words.now) score.entry.spans.now from.0 b marks }
{
    let mid = middle(plan, b);
    let outs = plan[b] as usize;
    let nexts = plan[mid] as usize;
    let shapes = plan[2];
    let states = plan[0];
    let numbered = NUMBERED_NODES;
    let nodes = score.words.len();
    let spans = score.spans;
    fine_pairs(plan, nodes, spans, from, b + 1, outs, shapes, marks)
        && fine_pairs(plan, nodes, spans, from, mid + 1, nexts, states, numbered)
}

// The log has room for one more, the waiting words for all items after the step.
#[tactic(auto, unfolding(crate::specs::ByIndex::room_left))]
fn room_left(plan: &[u16], b: usize, items: usize, log: usize, record: Record) -> bool
    requires { Taking plan.now b items «record» }
    ensures { result ≡ room_left plan.now b items log «record» }
{
    let mid = middle(plan, b);
    record.logged < log && record.waiting - 1 + plan[mid] as usize <= items / 2
}
