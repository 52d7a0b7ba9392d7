#![tactic(auto)]
// Takes lists of choices, each in one call. Standard input has a case in each line: a folio's name and a list of choices, with ` | ` behind
// each. A walk over NAME.folio is started, with the plan that is built for it; where the name has a `+` behind it, the walk of the line before
// goes on. Two numbers in a field of their own before the choices, an index and a value, change that word of the plan; `=` and a number there change
// the stored number of matches. Printed are the line and, with ` | ` between: how many choices were accepted, and 0 or the refusal's number and index;
// the items waiting, and after `;` the words that earlier items left behind them; the log; the marks that are not 0; the stored number.
// With a `.` behind the folio's name the choices are taken by single steps. V:M among them: the caller puts M into the mark at node V; =C: the caller
// puts C into the stored number. Printed are then for each step the stored number after it, or `r` and the refusal's number; the marks that are not 0.
use going::Going;
use running::lines::answer_lines;
use running::texts::{behind, field, has, value_of};
use std::io;

mod altering; // single steps, and what the caller alters between them
mod going; // a walk and its buffers
mod leaving; // what a list leaves behind

fn main(rt: HostRuntime) -> io::Result<()> {
    let mut going = Going::none();
    answer_lines(&rt, |line| run_line(&rt, line, &mut going))
}

// With a `+` behind the folio's name the walk goes on, with a `.` the steps are single.
fn run_line(rt: &HostRuntime, line: &[u8], going: &mut Going) -> io::Result<()> {
    if !has(field(line, 0), b'+') {
        going.begin(rt, line);
    }
    let changes_number = has(line, b'=');
    if has_change(line) && !changes_number {
        going.change_plan(field(line, 1));
    }
    if has(field(line, 0), b'.') {
        return going.take_singly(rt, field(line, 1));
    }
    if changes_number {
        going.change_number(value_of(field(behind(line, b'='), 0)));
    }
    going.take_choices(rt, choices_of(line))
}

// Whether a field stands between the name and the choices.
fn has_change(line: &[u8]) -> bool {
    line.iter().filter(|byte| **byte == b'|').count() > 2
}

// The last field.
fn choices_of(line: &[u8]) -> &[u8] {
    if has_change(line) {
        return field(line, 2);
    }
    field(line, 1)
}
