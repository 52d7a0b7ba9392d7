ghost use Rattle.std.specs.Prelude.{◌≡◌};
ghost use Rattle.binding.specs.Binding.{bind_out, bind_of};

use crate::storing::{put_bytes, put_trailer, put_words};
use kinds::limits::{MOST_SYMBOLS, SCORE_NODES, SHAPES_WORDS, TRAILER_BYTES};

// The bytes of a folio, and how many they are; 0 where a part is over its limit or there is no room for them.
#[tactic(auto, unfolding(crate::specs::Binding::bind_of))]
pub fn bind(symbols: &[u8], words: &[u16], score: &[u16], file: &mut [u8]) -> usize
    ensures { bind_out result file.new ≡ bind_of symbols.now words.now score.now file.old }
{
    if MOST_SYMBOLS < symbols.len() || SHAPES_WORDS < words.len() || SCORE_NODES < score.len() {
        return 0;
    }
    let scored = 2 * score.len();
    let shaped = 2 * words.len() + scored;
    let whole = symbols.len() + shaped;
    if file.len() < whole + TRAILER_BYTES {
        return 0;
    }
    let shapes = put_bytes(symbols, file, 0);
    let nodes = put_words(words, file, shapes);
    let trailer = put_words(score, file, nodes);
    put_trailer(whole as u16, shaped as u16, scored as u16, file, trailer)
}
