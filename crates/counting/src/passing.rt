ghost use Rattle.std.specs.Prelude.{◌≡◌, ◌-◌, ◌*◌, ◌≤◌, length};
ghost use Rattle.std.specs.Iterator.{YieldsFirstBy, item_count};
ghost use Rattle.counting.specs.Counting.{match_at, found_from, found_in};
ghost use Rattle.counting.specs.Passing.{next_of};

use kinds::{Node, Shape};

// The matches that marks hold, by node, then shape: those whose number is `from` or above.
#[derive(Drop)]
pub struct Matches<'a> {
    pub marks: &'a [u16],
    pub from: usize,
    ghost few: { length marks.now ≤ 4096 },
    ghost inside: { from ≤ 16 * length marks.now },
}

impl<'a> Matches<'a> {
    pub fn new(marks: &'a [u16]) -> Matches<'a>
        requires { length marks.now ≤ 4096 }
        ensures { found_from result.marks.now result.from (16 * length result.marks.now - result.from) ≡ found_in marks.now }
    {
        Matches { marks, from: 0 }
    }
}

impl<'a> Iterator for Matches<'a> {
    type Item = (Node, Shape);

    ghost next_gives = { YieldsFirstBy (λ p. match_at p.0.0 p.1.0) (λ s. found_from s.marks.now s.from (16 * length s.marks.now - s.from)) };

    ghost remaining = { item_count (λ s. found_from s.marks.now s.from (16 * length s.marks.now - s.from)) };

    fn next(&mut self) -> Option<(Node, Shape)> {
        let k = next_match(self.marks, self.from);
        if self.marks.len() <= k / 16 {
            return None;
        }
        self.from = k + 1;
        Some((Node((k / 16) as u16), Shape((k % 16) as u16)))
    }
}

// The number of the first match that the marks hold from a number on; behind the last one, 16 times the marks.
// Number k is shape k % 16 at node k / 16.
pub fn next_match(marks: &[u16], from: usize) -> usize
    requires { (length marks.now ≤ 4096) × (from ≤ 16 * length marks.now) }
    ensures { result ≡ next_of marks.now from (16 * length marks.now - from) }
{
    let mut k = from;
    // A while: the number jumps past a mark's last bit, no item is visited.
    while k / 16 < marks.len() {
        let rest = marks[k / 16] >> (k % 16);
        if rest != 0 {
            return k + u16::trailing_zeros(rest) as usize;
        }
        k += 16 - k % 16;
    }
    k
}
