ghost use Rattle.std.specs.Prelude.{◌≡◌, ◌≤◌, length};
ghost use Rattle.counting.specs.Counting.{match_at};
ghost use Rattle.report.specs.Lines.{out_of, written, line_out, first_out, refusal_out};
ghost use Rattle.report.specs.Text.{match_line};

use crate::Totals;
use crate::text::{put_digits, put_dotted, put_field, put_path, put_states, put_text};
use kinds::limits::{LINE_BYTES, NUMBER_DIGITS, PATH_NUMBERS};
use kinds::{Node, Reason, Shape, number};

// Each of these answers how many bytes its line has.

// The line of a match: its node, its shape and the node's path; 34 for a node that the spans do not have.
pub fn put_line(spans: &[u16], node: Node, shape: Shape, out: &mut [u8]) -> Result<usize, Reason>
    ensures { out_of result out.new ≡ line_out spans.now node.0 shape.0 out.old }
{
    if out.len() < LINE_BYTES {
        return Err(Reason::ShortBuffers);
    }
    let mut path = [0u16; PATH_NUMBERS];
    match put_path(spans, node.0 as usize, &mut path) {
        None => Err(Reason::OutOfRange),
        Some(n) => put_match(node, shape, &path[0..n], out),
    }
}

// The line of a match whose node's path is known.
fn put_match(node: Node, shape: Shape, path: &[u16], out: &mut [u8]) -> Result<usize, Reason>
    requires { (length path.now ≤ 64) × (1400 ≤ length out.old) }
    ensures { out_of result out.new ≡ written (match_line (match_at node.0 shape.0) path.now) out.old }
{
    let a = put_digits(node.0 as usize, NUMBER_DIGITS, out, 0);
    let b = put_field(b" ", shape.0 as usize, out, a);
    let c = put_text(b" ", out, b);
    let d = put_dotted(path, out, c);
    let end = put_text(b"\n", out, d);
    Ok(end)
}

// What a refusal prints.
pub fn put_refusal(reason: Reason, place: usize, out: &mut [u8]) -> Result<usize, Reason>
    ensures { out_of result out.new ≡ refusal_out reason place out.old }
{
    if out.len() < LINE_BYTES {
        return Err(Reason::ShortBuffers);
    }
    let a = put_field(b"refused ", number(reason) as usize, out, 0);
    let b = put_field(b" at ", place, out, a);
    let end = put_text(b"\n", out, b);
    Ok(end)
}

// The first line.
pub fn put_first(totals: Totals, out: &mut [u8]) -> Result<usize, Reason>
    ensures { out_of result out.new ≡ first_out totals out.old }
{
    if out.len() < LINE_BYTES {
        return Err(Reason::ShortBuffers);
    }
    let states = totals.states;
    let a = put_field(b"nodes ", totals.nodes, out, 0);
    let b = put_states(states, out, a);
    let c = put_field(b" matches ", totals.matches, out, b);
    let d = put_field(b" clashes ", totals.clashes, out, c);
    let e = put_field(b" depth ", totals.depth, out, d);
    let end = put_text(b"\n", out, e);
    Ok(end)
}
