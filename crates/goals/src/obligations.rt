ghost use Rattle.std.specs.Prelude.{◌≡◌, ◌+◌, ◌*◌, ◌<◌, ◌≤◌, length};
ghost use Rattle.std.proofs.lemmas.List.Edits.{sets};
ghost use Rattle.goals.specs.GoalWords.{Tabled, NodeIn, Owable, BothIn, code_at, owed_by, node_at, mask_after, pad, first_code, goals_from, Stored, label_code};
ghost use Rattle.goals.specs.GoalKinds.{as_words};
ghost use Rattle.goals.specs.Sharing.{first_shared};

use crate::words::goal_at;
use crate::{Goal, NO_CODE, POWERS_AT, SIZES_AT};
use kinds::Position;

// A code of at most six digits, padded with zeros to six.
pub fn padded(c: u32) -> u32
    ensures { result ≡ pad c }
{
    match c {
        0..5 => c * 3125,
        5..25 => c * 625,
        25..125 => c * 125,
        125..625 => c * 25,
        625..3125 => c * 5,
        _ => c,
    }
}

// The code of node r of a goal's shape.
pub fn code_at(tab: &[u16], g: Goal, r: usize) -> u32
    requires { NodeIn tab.now g.shape.0 r }
    ensures { result ≡ code_at tab.now g.shape.0 g.at.0 r }
{
    let at = 16 * g.shape.0 as usize + r;
    g.at.0 as u32 * tab[POWERS_AT + at] as u32 + tab[at] as u32
}

// The codes of a goal's obligations, in document order, into `out`; answers how many.
pub fn owed(tab: &[u16], g: Goal, out: &mut [u32]) -> usize
    requires { Owable tab.now g.shape.0 out.old }
    ensures count { result ≡ length (owed_by tab.now (as_words g)) }
    ensures wrote { out.new ≡ sets out.old 0 (owed_by tab.now (as_words g)) }
    ensures few { result ≤ 16 }
{
    let size = tab[SIZES_AT + 16 * g.shape.0 as usize] as usize;
    let mut mask = g.mask;
    let mut k = 0;
    for r in 0..size {
        if mask % 2 == 1 {
            out[k] = code_at(tab, g, r);
            k += 1;
        }
        mask /= 2;
    }
    k
}

// The open node of a goal that stands at a position; 16 where none does.
pub fn node_at(tab: &[u16], g: Goal, here: Position) -> usize
    requires { Tabled tab.now × (g.shape.0 < 16) }
    ensures { result ≡ node_at tab.now g.shape.0 g.at.0 g.mask here.0 }
{
    let size = tab[SIZES_AT + 16 * g.shape.0 as usize] as usize;
    let mut mask = g.mask;
    for r in 0..size {
        if mask % 2 == 1 && code_at(tab, g, r) == here.0 as u32 {
            return r;
        }
        mask /= 2;
    }
    16
}

// The mask without node r, with the nodes of `kids`.
pub fn mask_after(m: u16, r: usize, kids: u16) -> u16
    requires { r < 16 }
    ensures { result ≡ mask_after m r kids }
{
    (m ^ (1 << r)) | kids
}

// The first of the codes in `a` that stands in `b`.
pub fn common(a: &[u32], b: &[u32]) -> Option<u32>
    ensures { result ≡ first_shared a.now b.now }
{
    let mut shared = None;
    'outer: for x in a {
        for y in b {
            if y == x {
                shared = Some(*x);
                break 'outer;
            }
        }
    }
    shared
}

// The first obligation position of one goal that is the other's too.
pub fn share(tab: &[u16], g: Goal, h: Goal) -> Option<u32>
    requires { BothIn tab.now g.shape.0 h.shape.0 }
    ensures { result ≡ first_shared (owed_by tab.now (as_words g)) (owed_by tab.now (as_words h)) }
{
    let mut xs = [0u32; 16];
    let mut ys = [0u32; 16];
    let j = owed(tab, g, &mut xs);
    let k = owed(tab, h, &mut ys);
    common(&xs[..j], &ys[..k])
}

// The first in document order of `best` and the codes.
pub fn first_of(cs: &[u32], best: u32) -> u32
    ensures { result ≡ first_code best cs.now }
{
    cs.iter().copied().fold(
        best,
        |found, c| if padded(c) < padded(found) { c } else { found },
    )
}

// The first in document order of `best` and a goal's obligations.
pub fn first_owed(tab: &[u16], g: Goal, best: u32) -> u32
    requires { Tabled tab.now × (g.shape.0 < 16) }
    ensures { result ≡ first_code best (owed_by tab.now (as_words g)) }
{
    let mut xs = [0u32; 16];
    let k = owed(tab, g, &mut xs);
    first_of(&xs[..k], best)
}

// The code of a state's label; NO_CODE where no goal announces at the root.
pub fn label(tab: &[u16], ws: &[u16], at: usize, n: usize) -> u32
    requires { Stored tab.now ws.now at n }
    ensures { result ≡ label_code tab.now (goals_from ws.now at n) }
{
    let mut best: u32 = NO_CODE;
    for j in 0..n {
        let g = goal_at(ws, at + 3 * j);
        if g.at.0 == Position::ROOT.0 {
            best = first_owed(tab, g, best);
        }
    }
    best
}
