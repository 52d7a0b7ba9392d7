use bufferstone::limits::{PLAN_WORDS, SCORE_NODES, SCRATCH_WORDS, WAITING_WORDS};
use bufferstone::{Reason, Record, Refusal, Size, Unbuilt, Walk, build};
use running::parts::first;
use running::tables::Tables;
use totals::Made;

// Builds the plan, and walks to the end.
pub fn walk(tables: Tables<'_>, marks: &mut [u16]) -> Result<Made, Refusal> {
    let mut plan = [0u16; PLAN_WORDS];
    let size = build_in(tables, &mut plan)?;
    match walk_whole(first(&plan, size.words), tables, marks) {
        Ok(end) => Ok(Made::Walk(size, end)),
        Err(reason) => Err(Refusal(reason, 0)),
    }
}

// Scratch ends with this function, so that clearing it again behind building is left out.
fn build_in(tables: Tables<'_>, plan: &mut [u16]) -> Result<Size, Refusal> {
    let mut scratch = [0u16; SCRATCH_WORDS];
    match build(tables.symbols, tables.shapes(), plan, &mut scratch) {
        Ok(size) => Ok(size),
        Err(Unbuilt::Refused(reason)) => Err(Refusal(reason, 0)),
        Err(Unbuilt::Stopped(reason, state)) => Err(Refusal(reason, usize::from(state.0))),
    }
}

// A walk has as many steps as the score has nodes. The last item is taken each time: none has to close up.
fn walk_whole(plan: &[u16], tables: Tables<'_>, marks: &mut [u16]) -> Result<Record, Reason> {
    let score = tables.score();
    let mut waiting = [0u16; WAITING_WORDS];
    let mut log = [0u16; SCORE_NODES];
    let mut walk = Walk {
        waiting: &mut waiting,
        log: &mut log,
        marks,
    };
    let mut record = walk.start(tables.symbols, score)?;
    for _ in score.words {
        let last = record.waiting.saturating_sub(1);
        record = walk.step(plan, score, record, last)?;
    }
    Ok(record)
}
