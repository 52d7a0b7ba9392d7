#![tactic(auto)]
// Prints the report of the folio on standard input; or, for each file that it is given by name, the name and that file's report.
// The name `-` is standard input. The marks are made by a plan and a walk.
//
// `find --names` takes the names from standard input, a NUL behind each, and counts the files in a last line; `-` is then descriptor 3.
// `find --names --progress` says on standard error how many files are done and, when all output is written, the last line again.
use reporting::asking::answer;
use reporting::engines::Walking;

fn main(rt: HostRuntime) {
    answer(&rt, &Walking);
}
