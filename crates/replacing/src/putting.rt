ghost use Rattle.std.specs.Prelude.{◌≡◌, ◌<◌, ◌≤◌, length};
ghost use Rattle.replacing.specs.Putting.{result_of, put_out, handed, put_in, put_of};

use crate::finished::is_finished;
use crate::linking::is_tree;
use crate::making::{Change, make};
use checks::checking::{score_good, shapes_good};
use clashing::strays::is_match;
use contents::reading::read_score;
use kinds::limits::{BLANK, SCORE_NODES, SHAPE_NODES};
use kinds::{Node, Reason, Score, Shape, Shapes, Symbol};
use matching::covering::cover;
use matching::shapes::words_of;

// Puts a replacement in where the shape matches at the node: writes the new score to the front of `new`, and answers how many words it has.
pub fn put(
    symbols: &[u8],
    shapes: Shapes<'_>,
    score: Score<'_>,
    shape: Shape,
    node: Node,
    link: &[u16],
    finished: Symbol,
    new: &mut [u16],
) -> Result<usize, Reason>
    ensures { put_out result new.new ≡ put_of symbols.now shapes.entry.words.now shapes.entry.starts.now score.entry.words.now score.entry.spans.now shape.0 node.0 link.now finished.0 new.old }
{
    if !shapes_good(symbols, shapes) {
        return Err(Reason::BadShapes);
    }
    if !score_good(symbols, score) {
        return Err(Reason::BadScore);
    }
    if score.words.len() <= node.0 as usize {
        return Err(Reason::NotThere);
    }
    if !is_match(shapes, score, shape, node) {
        return Err(Reason::NotThere);
    }
    if is_finished(score, node, finished) {
        return Err(Reason::IsFinished);
    }
    put_in(
        symbols,
        words_of(shapes.words, shapes.starts, shape),
        score,
        node,
        link,
        new,
    )
}

// The same, where the shape matches and may be replaced.
fn put_in(
    symbols: &[u8],
    shape: &[u16],
    score: Score<'_>,
    node: Node,
    link: &[u16],
    new: &mut [u16],
) -> Result<usize, Reason>
    requires { (length shape.now ≤ 16) × (node.0 < length score.words.now) × (node.0 < length score.spans.now) }
    ensures { put_out result new.new ≡ put_in symbols.now shape.now score.entry.words.now score.entry.spans.now node.0 link.now new.old }
{
    let mut nodes = [0usize; SHAPE_NODES];
    let n = cover(shape, BLANK, score.spans, node, &mut nodes);
    let tree = is_tree(symbols, n, link);
    if !tree {
        return Err(Reason::NoTree);
    }
    let change = Change {
        score,
        node,
        nodes: &nodes[0..n],
        link,
    };
    write(symbols, change, new)
}

// The same, where the replacement is one tree.
fn write(symbols: &[u8], change: Change<'_>, new: &mut [u16]) -> Result<usize, Reason>
    requires { (change.node.0 < length change.score.words.now) × (change.node.0 < length change.score.spans.now) }
    ensures { put_out result new.new ≡ handed symbols.now (result_of change.entry.score.words.now change.entry.score.spans.now change.entry.node.0 change.entry.nodes.now change.entry.link.now) new.old }
{
    let mut made = [0u16; SCORE_NODES];
    match make(change, &mut made) {
        None => Err(Reason::PastLimits),
        Some(e) => hand_over(symbols, &made[0..e], new),
    }
}

// The result in the buffer, if it is a score and the buffer has room.
fn hand_over(symbols: &[u8], res: &[u16], new: &mut [u16]) -> Result<usize, Reason>
    ensures { put_out result new.new ≡ handed symbols.now res.now new.old }
{
    if read_score(symbols, res).is_err() {
        return Err(Reason::PastLimits);
    }
    let n = res.len();
    if new.len() < n {
        return Err(Reason::ShortScore);
    }
    new[..n].copy_from_slice(res);
    Ok(n)
}
