// The choices of a walk, noted so that one that has to be refused stands behind every seventh, and taken again by lists.
use crate::walking::Walk;
use bufferstone::limits::SCORE_NODES;
use bufferstone::{Reason, equal, number};
use running::parts::{behind, first, put};
use std::io;

// A choice for each node, the one that is refused at the end, and those between.
pub const CHOICES: usize = 4682;

// The words between are not written: each has to be a choice that is refused.
pub fn note(choices: &mut [u16], taken: usize, choice: usize) {
    put(choices, place(taken), choice);
}

fn place(taken: usize) -> usize {
    taken.saturating_add(taken / 7)
}

// The choices noted over n nodes, with the last one, which is refused.
pub fn noted(choices: &[u16], n: usize) -> &[u16] {
    first(choices, place(n).saturating_add(1))
}

// The walk again, by lists.
pub fn walk_lists(rt: &HostRuntime, walk: &Walk<'_>, choices: &[u16]) -> io::Result<()> {
    let mut again = Walk::new(walk.plan, walk.tables);
    if let Err(reason) = again.start() {
        return print!(rt; "no start {}", number(reason));
    }
    take_lists(rt, &mut again, choices)?;
    show_same(rt, equal(&walk.log, &again.log), " the same log")?;
    show_same(rt, equal(&walk.marks, &again.marks), " the same marks\n")
}

fn show_same(rt: &HostRuntime, same: bool, text: &str) -> io::Result<()> {
    let not = if same { "" } else { " but not" };
    print!(rt; "{not}{text}")
}

// Each list is what is left behind the choice that was refused, until none is.
fn take_lists(rt: &HostRuntime, walk: &mut Walk<'_>, choices: &[u16]) -> io::Result<()> {
    let mut accepted: usize = 0;
    let mut list = choices;
    for refused in 0..SCORE_NODES {
        let (taken, refusal) = walk.steps(list);
        accepted = accepted.saturating_add(taken);
        match refusal {
            None => return show_lists(rt, walk, refused, accepted),
            Some(reason) => show_refusal(rt, reason)?,
        }
        list = behind(list, taken.saturating_add(1));
    }
    Ok(())
}

fn show_refusal(rt: &HostRuntime, reason: Reason) -> io::Result<()> {
    match reason {
        Reason::NoSuchItem => Ok(()),
        other => print!(rt; " a choice refused {}", number(other)),
    }
}

fn show_lists(
    rt: &HostRuntime,
    walk: &Walk<'_>,
    refused: usize,
    accepted: usize,
) -> io::Result<()> {
    let lists = refused.saturating_add(1);
    let waiting = walk.record.waiting;
    let logged = walk.record.logged;
    print!(rt; "lists {lists} accepted {accepted} waiting {waiting} logged {logged}")
}
