#![tactic(auto)]
// What the programs `find` and `simple` share: all but the engine that makes the marks. Each program names its engine, a plan and a walk in `find`,
// comparing every shape at each node in `simple`; the other one, with its buffers, is not in it when it is compiled.
pub mod asking; // the arguments
pub mod engines; // what makes the marks
mod failing; // what ends a run
mod finding; // reading, opening and counting
mod holding; // the output
mod names; // names from standard input
mod printing; // the lines
mod tally; // the last line
mod third; // descriptor 3
mod walking; // building and walking
