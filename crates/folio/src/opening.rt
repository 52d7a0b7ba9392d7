ghost use Rattle.std.specs.Prelude.{◌≡◌, ◌≤◌, length, take, drop};
ghost use Rattle.folio.specs.Holding.{Sectioned};
ghost use Rattle.folio.specs.Opening.{lent, out, counts_of, stored, held, opened};

use crate::storing::{put, put_spans};
use crate::{Counts, SECTION_WORDS};
use contents::ShapesMet;
use contents::reading::{read_score, read_shapes};
use kinds::limits::BLANK;
use kinds::{Reason, Refusal};
use sections::finding::{fill, find_sections};
use term::Met;

// Opens a folio: writes its shape words, their starts, its score and the score's spans, or refuses it and writes nothing.
pub fn open(
    file: &[u8],
    words: &mut [u16],
    starts: &mut [u16],
    score: &mut [u16],
    spans: &mut [u16],
) -> Result<Counts, Refusal>
    ensures { out result (lent words.new starts.new score.new spans.new) ≡ opened file.now (lent words.old starts.old score.old spans.old) }
{
    let p = find_sections(file)?;
    let s = p.shapes;
    let t = p.score;
    let e = p.end;
    let mut all = [0u16; SECTION_WORDS];
    fill(&file[s..e], &mut all);
    let m = (t - s) / 2;
    let k = (e - s) / 2;
    hold(&file[0..s], &all[0..k], m, s, words, starts, score, spans)
}

// The shapes, m words whose first is at byte `at`, and the score, the words behind them; then 18 and the tables.
fn hold(
    symbols: &[u8],
    both: &[u16],
    m: usize,
    at: usize,
    words: &mut [u16],
    starts: &mut [u16],
    score: &mut [u16],
    spans: &mut [u16],
) -> Result<Counts, Refusal>
    requires { Sectioned both.now m at }
    ensures { out result (lent words.new starts.new score.new spans.new) ≡ held symbols.now (take m both.now) (drop m both.now) at (lent words.old starts.old score.old spans.old) }
{
    let k = both.len();
    let ws = &both[0..m];
    let sc = &both[m..k];
    let mut firsts = [0u16; 16];
    let found = match read_shapes(symbols, BLANK, ws, &mut firsts) {
        Err(Refusal(reason, i)) => {
            return Err(Refusal(reason, at + 2 * i));
        }
        Ok(met) => met,
    };
    let tree = match read_score(symbols, sc) {
        Err(Refusal(reason, i)) => {
            return Err(Refusal(reason, at + 2 * m + 2 * i));
        }
        Ok(met) => met,
    };
    let n = found.number;
    let st = &firsts[0..n];
    let counts = counts_of(symbols, ws, found, sc, tree);
    store(symbols, ws, st, sc, counts, words, starts, score, spans)
}

// What there is to answer of shapes and a score that are whole.
fn counts_of(symbols: &[u8], ws: &[u16], found: ShapesMet, sc: &[u16], tree: Met) -> Counts
    ensures { result ≡ counts_of symbols.now ws.now found sc.now tree }
{
    Counts {
        symbols: symbols.len(),
        shapes: found.number,
        words: ws.len(),
        nodes: sc.len(),
        depth: tree.depth,
        deepest: found.depth,
    }
}

// 18, and then the writing of the four tables.
#[tactic(auto, unfolding(crate::specs::Opening::stored))]
fn store(
    symbols: &[u8],
    ws: &[u16],
    st: &[u16],
    sc: &[u16],
    counts: Counts,
    words: &mut [u16],
    starts: &mut [u16],
    score: &mut [u16],
    spans: &mut [u16],
) -> Result<Counts, Refusal>
    requires { length sc.now ≤ 65535 }
    ensures { out result (lent words.new starts.new score.new spans.new) ≡ stored symbols.now ws.now st.now sc.now counts (lent words.old starts.old score.old spans.old) }
{
    if words.len() < ws.len()
        || starts.len() < st.len()
        || score.len() < sc.len()
        || spans.len() < sc.len()
    {
        return Err(Refusal(Reason::Tables, 0));
    }
    put(words, ws);
    put(starts, st);
    put(score, sc);
    put_spans(symbols, sc, spans);
    Ok(counts)
}
