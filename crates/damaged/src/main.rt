#![tactic(auto)]
// Walks the sample with one word of its plan changed: each word in turn set to 0, to 65,535 and to its value and one. Item 0 is taken until a
// step is refused, at most ten times; printed are the word and its value, the accepted steps and the refusal, the log and the marks.
use bufferstone::{Score, Walk, number};
use running::parts::first;
use running::sample::{PLAN, SCORE, SPANS, SYMBOLS};
use running::showing::show_words;
use std::io;

fn main(rt: HostRuntime) -> io::Result<()> {
    for (w, v) in PLAN.iter().enumerate() {
        if *v != 0 {
            try_word(&rt, w, 0)?;
        }
        try_word(&rt, w, v.wrapping_add(1))?;
        try_word(&rt, w, 65535)?;
    }
    Ok(())
}

fn try_word(rt: &HostRuntime, w: usize, value: u16) -> io::Result<()> {
    let mut plan = PLAN;
    if let Some(word) = plan.get_mut(w) {
        *word = value;
    }
    print!(rt; "{w} {value}:")?;
    walk_on(rt, &plan)?;
    print!(rt; "\n")
}

fn walk_on(rt: &HostRuntime, plan: &[u16]) -> io::Result<()> {
    let mut waiting = [0u16; 20];
    let mut log = [0u16; 10];
    let mut marks = [0u16; 10];
    let words = SCORE;
    let spans = SPANS;
    let score = Score {
        words: &words,
        spans: &spans,
    };
    let (taken, why) = take_firsts(
        plan,
        score,
        Walk {
            waiting: &mut waiting,
            log: &mut log,
            marks: &mut marks,
        },
    );
    show_end(rt, why, first(&log, taken), &marks)
}

// Takes the first item ten times; how many steps were taken, and the number of the refusal of the next one, 0 where none was refused.
fn take_firsts(plan: &[u16], score: Score<'_>, mut walk: Walk<'_>) -> (usize, u16) {
    let mut record = match walk.start(&SYMBOLS, score) {
        Ok(record) => record,
        Err(reason) => return (0, number(reason)),
    };
    for taken in 0..10 {
        record = match walk.step(plan, score, record, 0) {
            Ok(record) => record,
            Err(reason) => return (taken, number(reason)),
        };
    }
    (10, 0)
}

// A step is logged; `why` is 0 where none was refused.
fn show_end(rt: &HostRuntime, why: u16, log: &[u16], marks: &[u16]) -> io::Result<()> {
    print!(rt; " {} {why} | ", log.len())?;
    show_words(rt, log)?;
    print!(rt; " | ")?;
    show_words(rt, marks)
}
