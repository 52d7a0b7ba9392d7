ghost use Rattle.std.specs.Prelude.{◌≡◌, ◌+◌, ◌^◌, ◌≤◌, length};
ghost use Rattle.std.specs.Iterator.{YieldsFirst, item_count};
ghost use Rattle.matching.specs.Laying.{laid};

use crate::falling::size;
use kinds::Node;

// A shape's words, each with the node on which it falls: the first on a node that is given, each other one behind what the word before it takes.
#[derive(Drop)]
pub struct Laying<'a> {
    pub blank: usize,
    pub spans: &'a [u16],
    pub words: &'a [u16],
    pub x: usize,
    ghost room: { length words.now + length spans.now ≤ 2 ^ 63 },
    ghost near: { x + length words.now ≤ 2 ^ 63 + 65536 },
}

impl<'a> Laying<'a> {
    pub fn new(shape: &'a [u16], blank: usize, spans: &'a [u16], node: Node) -> Laying<'a>
        ensures { laid result.blank result.spans.now result.words.now result.x ≡ laid blank spans.now shape.now node.0 }
    {
        Laying {
            blank,
            spans,
            words: shape,
            x: node.0 as usize,
        }
    }
}

impl<'a> Iterator for Laying<'a> {
    type Item = (u16, usize);

    ghost next_gives = { YieldsFirst (λ s. laid s.blank s.spans.now s.words.now s.x) };

    ghost remaining = { item_count (λ s. laid s.blank s.spans.now s.words.now s.x) };

    fn next(&mut self) -> Option<(u16, usize)> {
        let (first, others) = self.words.split_first()?;
        let word = *first;
        let x = self.x;
        self.words = others;
        self.x += size(self.blank, self.spans, word, x);
        Some((word, x))
    }
}
