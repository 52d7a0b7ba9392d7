#![tactic(auto)]
// What the programs share.
pub mod changing; // the changes of a table
pub mod failing; // calls that failed
pub mod files; // files and arguments
pub mod lines; // lines of standard input
pub mod parts; // parts of a table
pub mod reading; // a file's bytes
pub mod sample; // the sample
pub mod showing; // words and marks on standard output
pub mod staying; // words that were to stay
pub mod tables; // an opened folio's tables
pub mod texts; // parts of a text, and its numbers
