#![tactic(auto)]
// What a user of Bufferstone calls, each once, in the order in which it is met. What is not here is inside.

// The numbers of states, nodes, shapes and symbols, each a kind of its own.
pub use kinds::{Node, Shape, State, Symbol};

// A place in a tree: `Position::ROOT`, and `child`, `is_good`, `length` and `before`.
pub use kinds::Position;

// Why a call is refused, and the number of that in document 01's table.
pub use kinds::{Reason, Refusal, number};

// The sizes of buffers that always do.
pub use kinds::limits;

// Whether two slices hold the same words.
pub use kinds::slices::equal;

// A file becomes four tables, or is refused.
pub use folio::Counts;
pub use folio::opening::open;

// The tables of its shapes and of its score, as they are lent to the calls below.
pub use kinds::{Score, Shapes};

// The tables become a plan, or are refused.
pub use plan::building::build;
pub use plan::{Size, Unbuilt};

// What a plan says, by its words.
pub use readers::Lengths;
pub use readers::reading::{announcement_of, label_of, lengths_of, successor_of};

// The same by a view of them.
pub use views::PlanView;
pub use views::viewing::{
    announcement_at, announcement_in, label_at, label_in, lengths_at, lengths_in, successor_at,
    successor_in, view,
};

// A walk over the score, in buffers lent: `start`, then one `step` after the other, or a list of choices.
pub use listing::Taken;
pub use listing::taking::steps;
pub use walk::{Record, Walk};

// The same marks without a plan: every shape compared with the subtree at each node.
pub use comparing::marking::compare;

// How many matches the marks hold, and how many of them clash.
pub use clashing::marks::clashes;
pub use counting::marks::matches;

// A replacement put in where a shape matches: the score with it.
pub use replacing::putting::put;

// The report's lines.
pub use report::Totals;
pub use report::lines::{put_first, put_line, put_refusal};

// For showing a match: the node at a position under a node, and the words of one subtree.
pub use checks::Asked;
pub use checks::showing::subtree;
pub use following::positions::follow;
