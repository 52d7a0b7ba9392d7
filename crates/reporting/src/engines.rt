use crate::walking::walk;
use bufferstone::{Refusal, compare};
use running::tables::Tables;
use totals::Made;

// What makes the marks.
pub trait Engine {
    // The program's name, in its messages.
    fn program(&self) -> &'static str;

    fn mark(&self, tables: Tables<'_>, marks: &mut [u16]) -> Result<Made, Refusal>;
}

// By a plan and a walk.
#[derive(Clone, Copy)]
pub struct Walking;

// By comparing every shape at each node.
#[derive(Clone, Copy)]
pub struct Comparing;

impl Engine for Walking {
    fn program(&self) -> &'static str {
        "find"
    }

    fn mark(&self, tables: Tables<'_>, marks: &mut [u16]) -> Result<Made, Refusal> {
        walk(tables, marks)
    }
}

impl Engine for Comparing {
    fn program(&self) -> &'static str {
        "simple"
    }

    fn mark(&self, tables: Tables<'_>, marks: &mut [u16]) -> Result<Made, Refusal> {
        match compare(tables.symbols, tables.shapes(), tables.score(), marks) {
            Ok(matches) => Ok(Made::Comparing(matches)),
            Err(reason) => Err(Refusal(reason, 0)),
        }
    }
}
