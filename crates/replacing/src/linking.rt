ghost use Rattle.std.specs.Prelude.{◌≡◌, ◌≤◌};
ghost use Rattle.replacing.specs.Putting.{is_known, trees_in};

use kinds::limits::FIRST_NAME;
use term::spans::count;

// Whether the words are exactly one tree of symbols and of names of n blanks. A tree that wants more subtrees than words are left is none.
pub fn is_tree(symbols: &[u8], n: usize, link: &[u16]) -> bool
    requires { n ≤ 16 }
    ensures { result ≡ trees_in symbols.now n 1 link.now }
{
    let mut wanted = 1;
    for (i, word) in link.iter().enumerate() {
        if wanted == 0 || link.len() - i < wanted || !is_known(symbols, n, *word) {
            return false;
        }
        wanted = wanted - 1 + count(symbols, *word);
    }
    wanted == 0
}

// Whether a word is a symbol, or the name of one of n blanks.
fn is_known(symbols: &[u8], n: usize, word: u16) -> bool
    requires { n ≤ 16 }
    ensures { result ≡ is_known symbols.now n word }
{
    let w = word as usize;
    w < symbols.len() || FIRST_NAME <= w && w < FIRST_NAME + n
}
