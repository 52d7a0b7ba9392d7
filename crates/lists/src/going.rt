use crate::leaving::show_waiting;
use bufferstone::limits::{
    FILE_BYTES, MOST_SHAPES, PLAN_WORDS, SCORE_NODES, SCRATCH_WORDS, SHAPES_WORDS, WAITING_WORDS,
};
use bufferstone::{Counts, Reason, Record, Score, Shapes, Taken, Walk, build, number, open, steps};
use running::files::read_folio;
use running::parts::{first, first_mut, put};
use running::showing::{show_marks, show_words};
use running::texts::{before, numbers_in};
use std::io;

// No item has this word: the waiting words that a walk never wrote.
pub const UNWRITTEN: u16 = 65535;

// A walk on its way: how many words its plan has and how many nodes its score, its record, and the buffers. `walks` has its
// own: `running`, which both have, is below stepping.
#[derive(Drop)]
pub struct Going {
    words: usize,
    nodes: usize,
    pub record: Record,
    plan: [u16; PLAN_WORDS],
    score: [u16; SCORE_NODES],
    spans: [u16; SCORE_NODES],
    waiting: [u16; WAITING_WORDS],
    log: [u16; SCORE_NODES],
    marks: [u16; SCORE_NODES],
}

impl Going {
    // No words, no nodes, and nothing waits.
    pub fn none() -> Going {
        Going {
            words: 0,
            nodes: 0,
            record: Record {
                waiting: 0,
                logged: 0,
                matches: 0,
            },
            plan: [0; PLAN_WORDS],
            score: [0; SCORE_NODES],
            spans: [0; SCORE_NODES],
            waiting: [0; WAITING_WORDS],
            log: [0; SCORE_NODES],
            marks: [0; SCORE_NODES],
        }
    }

    // Over the folio that the line names; where it is not opened, nothing waits.
    pub fn begin(&mut self, rt: &HostRuntime, line: &[u8]) {
        let mut file = [0u8; FILE_BYTES];
        let mut words = [0u16; SHAPES_WORDS];
        let mut starts = [0u16; MOST_SHAPES];
        self.end();
        let n = read_folio(rt, before(line, b' '), &mut file);
        match open(
            first(&file, n),
            &mut words,
            &mut starts,
            &mut self.score,
            &mut self.spans,
        ) {
            Err(_) => {}
            Ok(c) => {
                let symbols = first(&file, c.symbols);
                let shapes = Shapes {
                    words: first(&words, c.words),
                    starts: first(&starts, c.shapes),
                };
                self.build(symbols, shapes);
                self.start(c, symbols);
            }
        }
    }

    fn end(&mut self) {
        self.words = 0;
        self.nodes = 0;
        self.record = Record {
            waiting: 0,
            logged: 0,
            matches: 0,
        };
    }

    // Where no plan is built, it has no words.
    fn build(&mut self, symbols: &[u8], shapes: Shapes<'_>) {
        let mut scratch = [0u16; SCRATCH_WORDS];
        if let Ok(size) = build(symbols, shapes, &mut self.plan, &mut scratch) {
            self.words = size.words;
        }
    }

    fn start(&mut self, counts: Counts, symbols: &[u8]) {
        self.waiting.fill(UNWRITTEN);
        let score = Score {
            words: first(&self.score, counts.nodes),
            spans: first(&self.spans, counts.nodes),
        };
        let mut walk = Walk {
            waiting: &mut self.waiting,
            log: &mut self.log,
            marks: &mut self.marks,
        };
        match walk.start(symbols, score) {
            Err(_) => self.end(),
            Ok(record) => {
                self.nodes = counts.nodes;
                self.record = record;
            }
        }
    }

    // The field has an index and a value.
    pub fn change_plan(&mut self, change: &[u8]) {
        let mut numbers = [0u16; 2];
        numbers_in(change, &mut numbers);
        if let Some(word) = self.plan.get_mut(usize::from(numbers[0])) {
            *word = numbers[1];
        }
    }

    pub fn change_number(&mut self, matches: usize) {
        self.record.matches = matches;
    }

    pub fn put_mark(&mut self, node: usize, mark: usize) {
        let nodes = self.nodes;
        put(first_mut(&mut self.marks, nodes), node, mark);
    }

    // Each call lends the tables and the buffers anew: a function that answers a struct of parts of `self` is not covered.
    pub fn step(&mut self, choice: usize) -> Result<(), Reason> {
        let nodes = self.nodes;
        let record = self.record;
        let score = Score {
            words: first(&self.score, nodes),
            spans: first(&self.spans, nodes),
        };
        let mut walk = Walk {
            waiting: first_mut(&mut self.waiting, twice(nodes)),
            log: first_mut(&mut self.log, nodes),
            marks: first_mut(&mut self.marks, nodes),
        };
        self.record = walk.step(first(&self.plan, self.words), score, record, choice)?;
        Ok(())
    }

    // How many of the choices were accepted, and why the next one was not.
    fn steps(&mut self, choices: &[u16]) -> (usize, Option<Reason>) {
        let nodes = self.nodes;
        let record = self.record;
        let score = Score {
            words: first(&self.score, nodes),
            spans: first(&self.spans, nodes),
        };
        let mut walk = Walk {
            waiting: first_mut(&mut self.waiting, twice(nodes)),
            log: first_mut(&mut self.log, nodes),
            marks: first_mut(&mut self.marks, nodes),
        };
        let plan = first(&self.plan, self.words);
        let (Taken(accepted, record), refusal) = match steps(
            &mut walk, plan, score, record, choices,
        ) {
            Ok(taken) => (taken, None),
            Err((reason, taken)) => (taken, Some(reason)),
        };
        self.record = record;
        (accepted, refusal)
    }

    pub fn take_choices(&mut self, rt: &HostRuntime, text: &[u8]) -> io::Result<()> {
        let mut choices = [0u16; 2 * SCORE_NODES];
        let (accepted, refusal) = self.steps(numbers_in(text, &mut choices));
        match refusal {
            None => print!(rt; "{accepted} 0 | ")?,
            Some(reason) => print!(rt; "{accepted} {} {accepted} | ", number(reason))?,
        }
        let Record {
            waiting,
            logged,
            matches,
        } = self.record;
        let nodes = self.nodes;
        show_waiting(rt, first(&self.waiting, twice(nodes)), twice(waiting))?;
        print!(rt; " | ")?;
        show_words(rt, first(first(&self.log, nodes), logged))?;
        self.show_marked(rt)?;
        print!(rt; " | {matches}")
    }

    // The marks, in a field of their own.
    pub fn show_marked(&self, rt: &HostRuntime) -> io::Result<()> {
        print!(rt; " | ")?;
        show_marks(rt, "", first(&self.marks, self.nodes))
    }
}

// An item that waits has two words.
fn twice(n: usize) -> usize {
    n.saturating_mul(2)
}
