use bufferstone::limits::{SCORE_NODES, WAITING_WORDS};
use bufferstone::{Reason, Record, Taken, steps};
use running::parts::first_mut;
use running::tables::Tables;

// A walk by a plan over a score: the buffers that it writes, and its record. `lists` has its own: `running`, which both have, is below stepping.
#[derive(Drop)]
pub struct Walk<'a> {
    pub plan: &'a [u16],
    pub tables: Tables<'a>,
    waiting: [u16; WAITING_WORDS],
    pub log: [u16; SCORE_NODES],
    pub marks: [u16; SCORE_NODES],
    pub record: Record,
}

impl<'a> Walk<'a> {
    // Not begun: nothing waits.
    pub fn new(plan: &'a [u16], tables: Tables<'a>) -> Walk<'a> {
        Walk {
            plan,
            tables,
            waiting: [0; WAITING_WORDS],
            log: [0; SCORE_NODES],
            marks: [9; SCORE_NODES],
            record: Record {
                waiting: 0,
                logged: 0,
                matches: 0,
            },
        }
    }

    // Each call lends the buffers anew: a function that answers a struct of parts of `self` is not covered.
    pub fn start(&mut self) -> Result<(), Reason> {
        let tables = self.tables;
        let mut walk = bufferstone::Walk {
            waiting: first_mut(&mut self.waiting, WAITING_WORDS),
            log: first_mut(&mut self.log, SCORE_NODES),
            marks: first_mut(&mut self.marks, SCORE_NODES),
        };
        self.record = walk.start(tables.symbols, tables.score())?;
        Ok(())
    }

    pub fn step(&mut self, choice: usize) -> Result<(), Reason> {
        let tables = self.tables;
        let plan = self.plan;
        let record = self.record;
        let mut walk = bufferstone::Walk {
            waiting: first_mut(&mut self.waiting, WAITING_WORDS),
            log: first_mut(&mut self.log, SCORE_NODES),
            marks: first_mut(&mut self.marks, SCORE_NODES),
        };
        self.record = walk.step(plan, tables.score(), record, choice)?;
        Ok(())
    }

    // How many of the choices were accepted, and why the next one was not.
    pub fn steps(&mut self, choices: &[u16]) -> (usize, Option<Reason>) {
        let tables = self.tables;
        let plan = self.plan;
        let record = self.record;
        let mut walk = bufferstone::Walk {
            waiting: first_mut(&mut self.waiting, WAITING_WORDS),
            log: first_mut(&mut self.log, SCORE_NODES),
            marks: first_mut(&mut self.marks, SCORE_NODES),
        };
        let (Taken(accepted, record), refusal) = match steps(
            &mut walk,
            plan,
            tables.score(),
            record,
            choices,
        ) {
            Ok(taken) => (taken, None),
            Err((reason, taken)) => (taken, Some(reason)),
        };
        self.record = record;
        (accepted, refusal)
    }
}
