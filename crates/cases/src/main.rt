#![tactic(auto)]
// Opens each folio that it is given by name, and prints what opening answers; then once more with no spans lent. Then it builds the sample, which
// is its standard input, with plan buffers of 56 words and of 55, and with a scratch of one word too few; printed are the two lengths, what
// building answers and the plan buffer's words.
use bufferstone::limits::{FILE_BYTES, MOST_SHAPES, SCORE_NODES, SCRATCH_WORDS, SHAPES_WORDS};
use bufferstone::{Counts, Reason, Refusal, Shapes, Unbuilt, build, number, open};
use running::files::{Name, open_named};
use running::parts::first;
use running::reading::read_full;
use running::showing::show_spaced;
use std::io;
use std::io::Read;

fn main(rt: HostRuntime) -> io::Result<()> {
    show_arguments(&rt)?;
    show_sample(&rt)
}

fn show_arguments(rt: &HostRuntime) -> io::Result<()> {
    for i in 1..usize::MAX {
        let Some(name) = Name::argument(rt, i) else {
            return Ok(());
        };
        show_named(rt, name.as_bytes())?;
    }
    Ok(())
}

fn show_named(rt: &HostRuntime, path: &[u8]) -> io::Result<()> {
    rt.write_all(path)?;
    match open_named(rt, path) {
        Ok(mut input) => show_file(rt, &mut input),
        Err(_) => print!(rt; ": not there\n"),
    }
}

fn show_file(rt: &HostRuntime, input: &mut impl Read) -> io::Result<()> {
    let mut bytes = [0u8; FILE_BYTES + 1];
    let n = read_full(input, &mut bytes);
    let file = first(&bytes, n);
    let mut words = [9u16; SHAPES_WORDS];
    let mut starts = [9u16; MOST_SHAPES];
    let mut score = [9u16; SCORE_NODES];
    let mut spans = [9u16; SCORE_NODES];
    let opened = open(file, &mut words, &mut starts, &mut score, &mut spans);
    show_answer(rt, opened)?;
    let with_no_spans = open(file, &mut words, &mut starts, &mut score, &mut spans[0..0]);
    show_answer(rt, with_no_spans)?;
    print!(rt; "\n")
}

fn show_answer(rt: &HostRuntime, answer: Result<Counts, Refusal>) -> io::Result<()> {
    match answer {
        Err(Refusal(reason, place)) => show_refusal(rt, reason, place),
        Ok(c) => {
            print!(rt; ": opens {} {} {}", c.symbols, c.shapes, c.words)?;
            print!(rt; " {} {} {}", c.nodes, c.depth, c.deepest)
        }
    }
}

fn show_sample(rt: &HostRuntime) -> io::Result<()> {
    let mut file = [0u8; 49];
    read_full(&mut rt.reader(), &mut file);
    let mut words = [0u16; 9];
    let mut starts = [0u16; 2];
    let mut score = [0u16; 10];
    let mut spans = [0u16; 10];
    let _ = open(&file, &mut words, &mut starts, &mut score, &mut spans);
    let symbols = [file[0], file[1], file[2]];
    let mut enough = [9u16; 56];
    let mut short = [9u16; 55];
    let mut scratch = [9u16; SCRATCH_WORDS];
    let mut little = [9u16; 32767];
    let shapes = Shapes {
        words: &words,
        starts: &starts,
    };
    show_build(rt, &symbols, shapes, &mut enough, &mut scratch)?;
    show_build(rt, &symbols, shapes, &mut short, &mut scratch)?;
    show_build(rt, &symbols, shapes, &mut short, &mut little)
}

fn show_build(
    rt: &HostRuntime,
    symbols: &[u8],
    shapes: Shapes<'_>,
    plan: &mut [u16],
    scratch: &mut [u16],
) -> io::Result<()> {
    print!(rt; "plan {} {}", plan.len(), scratch.len())?;
    match build(symbols, shapes, plan, scratch) {
        Err(Unbuilt::Refused(reason)) => show_refusal(rt, reason, 0)?,
        Err(Unbuilt::Stopped(reason, state)) => show_refusal(rt, reason, state.0 as usize)?,
        Ok(size) => print!(rt; ": builds {} {}", size.states, size.words)?,
    }
    print!(rt; ":")?;
    show_spaced(rt, plan)?;
    print!(rt; "\n")
}

fn show_refusal(rt: &HostRuntime, reason: Reason, place: usize) -> io::Result<()> {
    print!(rt; ": refused {} at {place}", number(reason))
}
