#![tactic(auto)]
// Opens each folio that it is given by name, builds its plan and holds it against the stored one, which is named behind the folio. Then the
// score is walked with the built plan: taking the first item, the last, and items by a fixed pseudo-random row, each time with a refused choice
// before every step. Printed are the accepted steps, what waits, what is logged, the refusal of the step after the end, the log where it has at
// most ten nodes, and the marks. Each walk is made again by lists of the same choices, with a refused one behind every seventh.
use bufferstone::limits::{
    FILE_BYTES, MOST_SHAPES, PLAN_WORDS, SCORE_NODES, SCRATCH_WORDS, SHAPES_WORDS,
};
use bufferstone::{Reason, Refusal, Size, Unbuilt, build, equal, number, open};
use listed::{CHOICES, note, noted, walk_lists};
use running::files::{Name, has_argument, open_named};
use running::parts::first;
use running::reading::read_full;
use running::showing::{show_marks, show_spaced};
use running::tables::Tables;
use running::texts::numbers_in;
use std::io;
use walking::Walk;

mod listed; // the same choices by lists
mod walking; // a walk and its buffers

fn main(rt: HostRuntime) -> io::Result<()> {
    for i in (1..usize::MAX).step_by(2) {
        if !has_argument(&rt, i) {
            return Ok(());
        }
        walk_folio(&rt, i, i + 1)?;
    }
    Ok(())
}

fn walk_folio(rt: &HostRuntime, i: usize, j: usize) -> io::Result<()> {
    let mut file = [0u8; FILE_BYTES + 1];
    let n = read_argument(rt, i, &mut file)?;
    let mut text = [0u8; 196608];
    let t = read_argument(rt, j, &mut text)?;
    let mut stored = [0u16; PLAN_WORDS];
    let plan = numbers_in(first(&text, t), &mut stored);
    walk_file(rt, first(&file, n), plan)
}

// The bytes of the file that argument i names; how many they are, 0 where there is no such file.
fn read_argument(rt: &HostRuntime, i: usize, bytes: &mut [u8]) -> io::Result<usize> {
    let name = Name::argument(rt, i).unwrap_or_default();
    rt.write_all(name.as_bytes())?;
    print!(rt; " ")?;
    match open_named(rt, name.as_bytes()) {
        Ok(mut input) => Ok(read_full(&mut input, bytes)),
        Err(_) => Ok(0),
    }
}

fn walk_file(rt: &HostRuntime, file: &[u8], stored: &[u16]) -> io::Result<()> {
    let mut words = [0u16; SHAPES_WORDS];
    let mut starts = [0u16; MOST_SHAPES];
    let mut score = [0u16; SCORE_NODES];
    let mut spans = [0u16; SCORE_NODES];
    match open(file, &mut words, &mut starts, &mut score, &mut spans) {
        Err(Refusal(reason, _)) => print!(rt; "refused {}", number(reason)),
        Ok(c) => {
            let tables = Tables {
                symbols: first(file, c.symbols),
                words: first(&words, c.words),
                starts: first(&starts, c.shapes),
                score: first(&score, c.nodes),
                spans: first(&spans, c.nodes),
            };
            walk_opened(rt, tables, stored)
        }
    }
}

fn walk_opened(rt: &HostRuntime, tables: Tables<'_>, stored: &[u16]) -> io::Result<()> {
    let mut plan = [9u16; PLAN_WORDS];
    let mut scratch = [9u16; SCRATCH_WORDS];
    match build(tables.symbols, tables.shapes(), &mut plan, &mut scratch) {
        Ok(size) => {
            let built = first(&plan, size.words);
            show_plan(rt, size, equal(built, stored))?;
            walk_ways(rt, built, tables)
        }
        Err(Unbuilt::Refused(reason) | Unbuilt::Stopped(reason, _)) => {
            print!(rt; "no plan {}", number(reason))
        }
    }
}

fn show_plan(rt: &HostRuntime, size: Size, same: bool) -> io::Result<()> {
    if same {
        println!(rt;
            "plan {} states {} words as stored",
            size.states, size.words
        )
    } else {
        println!(rt; "plan differs")
    }
}

// Of the items waiting the first is taken each time, the last, and one that the turn says.
fn walk_ways(rt: &HostRuntime, plan: &[u16], tables: Tables<'_>) -> io::Result<()> {
    let none = [65535u16; SCORE_NODES];
    let firsts = walk_way(rt, plan, tables, &none, |_, _| 0)?;
    walk_way(
        rt,
        plan,
        tables,
        &firsts,
        |waiting, _| waiting.saturating_sub(1),
    )?;
    walk_way(
        rt,
        plan,
        tables,
        &firsts,
        |waiting, turn| turn.checked_rem(waiting).unwrap_or(0),
    )?;
    Ok(())
}

// By single steps, and again by lists; the marks. `before` are those of another way.
fn walk_way<F: Fn(usize, usize) -> usize>(
    rt: &HostRuntime,
    plan: &[u16],
    tables: Tables<'_>,
    before: &[u16],
    choose: F,
) -> io::Result<[u16; SCORE_NODES]>
    requires { F.IsAlwaysCallable choose }
{
    let mut choices = [65535u16; CHOICES];
    let mut walk = Walk::new(plan, tables);
    match walk.start() {
        Ok(()) => take_steps(rt, &mut walk, &mut choices, choose)?,
        Err(reason) => print!(rt; "no start {}", number(reason))?,
    }
    if equal(before, &walk.marks) {
        print!(rt; " the same marks\n")?;
    } else {
        print!(rt; " marks")?;
        show_marks(rt, " ", first(&walk.marks, tables.score.len()))?;
        print!(rt; "\n")?;
    }
    walk_lists(rt, &walk, noted(&choices, tables.score.len()))?;
    Ok(walk.marks)
}

// Steps until one is refused, each after one with a choice that has to be refused. What was chosen is noted.
fn take_steps<F: Fn(usize, usize) -> usize>(
    rt: &HostRuntime,
    walk: &mut Walk<'_>,
    choices: &mut [u16],
    choose: F,
) -> io::Result<()>
    requires { F.IsAlwaysCallable choose }
{
    let mut turn: usize = 1;
    for taken in 0..5000 {
        turn = ((turn % 65537) * 75 + 74) % 65537;
        let waiting = walk.record.waiting;
        let choice = choose(waiting, turn);
        note(choices, taken, choice);
        show_wrong(rt, walk.step(waiting), walk.record.waiting)?;
        if let Err(reason) = walk.step(choice) {
            return show_end(rt, walk, taken, reason);
        }
    }
    Ok(())
}

// Where a choice past the end was not refused for that.
fn show_wrong(rt: &HostRuntime, answer: Result<(), Reason>, waiting: usize) -> io::Result<()> {
    match answer {
        Ok(()) => print!(rt; " a wrong choice taken, waiting {waiting}"),
        Err(Reason::NoSuchItem) => Ok(()),
        Err(reason) => print!(rt; " a wrong choice refused {}", number(reason)),
    }
}

fn show_end(rt: &HostRuntime, walk: &Walk<'_>, taken: usize, why: Reason) -> io::Result<()> {
    let waiting = walk.record.waiting;
    let logged = walk.record.logged;
    print!(rt;
        "steps {taken} waiting {waiting} logged {logged} then refused {}",
        number(why)
    )?;
    if logged <= 10 {
        print!(rt; " log")?;
        show_spaced(rt, first(&walk.log, logged))?;
    }
    Ok(())
}
