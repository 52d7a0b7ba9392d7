ghost use Rattle.std.specs.Prelude.{◌≡◌, ◌≤◌, length};
ghost use Rattle.std.proofs.lemmas.List.Edits.{sets};
ghost use Rattle.term.specs.Spans.{spans_of};

use kinds::slices::copy;
use term::spans::{count, skip};

// Copies `words` to the start of `out`; what stands after them stays.
pub fn put(out: &mut [u16], words: &[u16])
    requires { length words.now ≤ length out.old }
    ensures { out.new ≡ sets out.old 0 words.now }
{
    copy(out, 0, words);
}

// Writes each node's span at the node's index, from the last node back to the first.
pub fn put_spans(symbols: &[u8], words: &[u16], spans: &mut [u16])
    requires { (length words.now ≤ length spans.old) × (length words.now ≤ 65535) }
    ensures { spans.new ≡ sets spans.old 0 (spans_of symbols.now words.now) }
{
    let n = words.len();
    for i in (0..n).rev() {
        let k = count(symbols, words[i]);
        let e = skip(&spans[0..n], i + 1, k);
        spans[i] = (e - i) as u16;
    }
}
