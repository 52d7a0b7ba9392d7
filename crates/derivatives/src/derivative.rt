ghost use Rattle.std.specs.Prelude.{◌≡◌, ◌+◌, ◌<◌, ◌≤◌, length};
ghost use Rattle.goals.specs.GoalWords.{Tabled, goals_from, flat, Stored};
ghost use Rattle.goals.specs.GoalKinds.{as_words};
ghost use Rattle.goals.specs.WordStages.{stays, moves, reduct, goes_on, freshes_w, born_w, deriv_w};
ghost use Rattle.derivatives.specs.Passes.{passed, Puts, PutsFirst, Bearable, Derivable};

use goals::obligations::{mask_after, node_at};
use goals::words::{goal_at, put_goal};
use goals::{CHILDREN_AT, Goal, SYMBOLS_AT, UNEXPECTED};
use kinds::{Position, Shape, Symbol};

// A goal's mask after reducing at a position by a symbol; UNEXPECTED where the symbol is not expected there.
#[tactic(auto, using(crate::proofs::DeriveLaws::node_le))]
pub fn reduce(tab: &[u16], g: Goal, root: Position, symbol: Symbol) -> u32
    requires { Tabled tab.now × (g.shape.0 < 16) }
    ensures { result ≡ reduct tab.now root.0 symbol.0 (as_words g) }
{
    let s = g.shape.0 as usize;
    let r = node_at(tab, g, root);
    if r == 16 {
        return UNEXPECTED;
    }
    if tab[SYMBOLS_AT + (16 * s + r)] != symbol.0 {
        return UNEXPECTED;
    }
    mask_after(g.mask, r, tab[CHILDREN_AT + (16 * s + r)]) as u32
}

// The goals that have no open node at a position, from `to` on; answers the place after them.
fn put_staying(
    tab: &[u16],
    ws: &[u16],
    at: usize,
    n: usize,
    root: Position,
    out: &mut [u16],
    to: usize,
) -> usize
    requires { Stored tab.now ws.now at n × (to + length (passed (stays tab.now root.0) ws.now at n) ≤ length out.old) }
    ensures { Puts (passed (stays tab.now root.0) ws.now at n) to result out.old out.new }
{
    let mut next = to;
    for i in 0..n {
        let g = goal_at(ws, at + 3 * i);
        if node_at(tab, g, root) == 16 {
            put_goal(out, next, g);
            next += 3;
        }
    }
    next
}

// The goals reduced at a position by a symbol that have something open still, from `to` on; answers the place after them.
fn put_moving(
    tab: &[u16],
    ws: &[u16],
    at: usize,
    n: usize,
    root: Position,
    symbol: Symbol,
    out: &mut [u16],
    to: usize,
) -> usize
    requires { Stored tab.now ws.now at n × (to + length (passed (moves tab.now root.0 symbol.0) ws.now at n) ≤ length out.old) }
    ensures { Puts (passed (moves tab.now root.0 symbol.0) ws.now at n) to result out.old out.new }
{
    let mut next = to;
    for i in 0..n {
        let g = goal_at(ws, at + 3 * i);
        let x = reduce(tab, g, root, symbol);
        next = put_moved(out, next, g, x);
    }
    next
}

// One goal with mask x, where that is a mask and not empty.
fn put_moved(out: &mut [u16], to: usize, g: Goal, x: u32) -> usize
    requires { to + length (flat (goes_on x (as_words g))) ≤ length out.old }
    ensures { Puts (flat (goes_on x (as_words g))) to result out.old out.new }
{
    if x == 0 {
        return to;
    }
    if UNEXPECTED <= x {
        return to;
    }
    put_goal(
        out,
        to,
        Goal {
            shape: Shape(g.shape.0),
            at: Position(g.at.0),
            mask: x as u16,
        },
    );
    to + 3
}

// The fresh goals of n shapes at a position, from `to` on; answers the place after them.
pub fn put_fresh(out: &mut [u16], to: usize, n: usize, at: Position) -> usize
    requires { (n ≤ 16) × (to + length (flat (freshes_w n at.0)) ≤ length out.old) }
    ensures { Puts (flat (freshes_w n at.0)) to result out.old out.new }
{
    let mut next = to;
    for j in 0..n {
        put_goal(
            out,
            next,
            Goal {
                shape: Shape(j as u16),
                at,
                mask: 1,
            },
        );
        next += 3;
    }
    next
}

// The fresh goals of n shapes at each of the k children of a position, from `to` on; answers the place after them.
fn put_born(out: &mut [u16], to: usize, n: usize, root: Position, k: u16) -> usize
    requires { Bearable n root.0 k to out.old }
    ensures { Puts (flat (born_w n root.0 k)) to result out.old out.new }
{
    let mut next = to;
    for i in 0..k {
        next = put_fresh(out, next, n, Position(5 * root.0 + (i + 1)));
    }
    next
}

// The derivative of a state at its label by a symbol of k children, for n shapes; answers the words written.
pub fn derive(
    tab: &[u16],
    ws: &[u16],
    at: usize,
    goals: usize,
    n: usize,
    root: Position,
    symbol: Symbol,
    k: u16,
    out: &mut [u16],
) -> usize
    requires { Stored tab.now ws.now at goals × Derivable tab.now n root.0 symbol.0 k (goals_from ws.now at goals) out.old }
    ensures { PutsFirst (flat (deriv_w tab.now n root.0 symbol.0 k (goals_from ws.now at goals))) result out.old out.new }
{
    let one = put_staying(tab, ws, at, goals, root, out, 0);
    let two = put_moving(tab, ws, at, goals, root, symbol, out, one);
    put_born(out, two, n, root, k)
}
