ghost use Rattle.std.specs.Prelude.{◌≡◌, ◌+◌, get_or, drop};
ghost use Rattle.kinds.specs.Lists.{same};
ghost use Rattle.term.specs.Spans.{over, spans_of};

// Whether `spans` are the spans of `words`, each by its whole length.
pub fn spans_are(symbols: &[u8], words: &[u16], spans: &[u16]) -> bool
    ensures { result ≡ same spans.now (spans_of symbols.now words.now) }
{
    if spans.len() != words.len() {
        return false;
    }
    for i in (0..words.len()).rev() {
        let k = count(symbols, words[i]);
        let e = skip(spans, i + 1, k);
        if spans[i] as usize != e - i {
            return false;
        }
    }
    true
}

// The index after the k subtrees that stand one after the other from `at` on.
pub fn skip(spans: &[u16], at: usize, k: usize) -> usize
    ensures { result ≡ at + over k (drop at spans.now) }
{
    let mut here = at;
    for _ in 0..k {
        if spans.len() <= here {
            return here;
        }
        here += spans[here] as usize;
    }
    here
}

// A word's number of children, none where it is no symbol.
pub fn count(symbols: &[u8], word: u16) -> usize
    ensures { result ≡ get_or symbols.now word 0 }
{
    symbols.get(word as usize).map_or(0, |n| *n as usize)
}
