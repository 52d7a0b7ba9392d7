ghost use Rattle.std.specs.Prelude.{◌≡◌, ◌≤◌, length};
ghost use Rattle.automaton.specs.PlanWords.{planned};
ghost use Rattle.decoding.specs.WordMachine.{words as machine};
ghost use Rattle.decoding.specs.GoodStates.{Ready};
ghost use Rattle.plan.specs.Building.{out, build_of, written, scratch_words, cleared};

use crate::{Size, Unbuilt};
use checks::checking::shapes_good;
use exploring::meeting::explore;
use kinds::limits::SCRATCH_WORDS;
use kinds::{Reason, Shapes};
use states::Setting;
use tables::TABLE_WORDS;
use tables::filling::fill_tables;
use writing::blocks::write_plan;

// Builds the plan of the shapes into `plan`, or refuses and leaves it as it was; the first 32,768 scratch words are zero afterwards, but for 19 and 23.
pub fn build(
    symbols: &[u8],
    shapes: Shapes<'_>,
    plan: &mut [u16],
    scratch: &mut [u16],
) -> Result<Size, Unbuilt>
    ensures { out result plan.new scratch.new ≡ build_of symbols.now shapes.entry.words.now shapes.entry.starts.now plan.old scratch.old }
{
    if shapes_good(symbols, shapes) {
        if scratch.len() < SCRATCH_WORDS {
            return Err(Unbuilt::Refused(Reason::ShortScratch));
        }
        let mut tab = [0u16; TABLE_WORDS];
        fill_tables(symbols, shapes.words, shapes.starts, &mut tab);
        let answer = make(&tab, symbols, shapes.starts.len(), plan, scratch);
        clear(scratch);
        return answer;
    }
    Err(Unbuilt::Refused(Reason::BadShapes))
}

// The plan from the shapes' tables; of scratch only words that are cleared afterwards are written.
fn make(
    tab: &[u16],
    symbols: &[u8],
    shapes: usize,
    plan: &mut [u16],
    scratch: &mut [u16],
) -> Result<Size, Unbuilt>
    requires { Ready symbols.now tab.now shapes × (scratch_words ≤ length scratch.old) }
    ensures { out result plan.new (cleared scratch.new) ≡ written (planned (machine tab.now shapes) symbols.now shapes (length plan.old)) plan.old scratch.old }
{
    let setting = Setting {
        tab,
        symbols,
        shapes,
    };
    match explore(setting, scratch) {
        Err((reason, state)) => Err(Unbuilt::Stopped(reason, state)),
        Ok((m, blocks)) => {
            let total = 4 + m + m * symbols.len() + blocks;
            if plan.len() < total {
                return Err(Unbuilt::Refused(Reason::LongPlan));
            }
            if 65535 < total {
                return Err(Unbuilt::Refused(Reason::LongPlan));
            }
            write_plan(setting, scratch, m, total, plan);
            Ok(Size {
                states: m,
                words: total,
            })
        }
    }
}

// The first 32,768 words zero.
fn clear(scratch: &mut [u16])
    requires { scratch_words ≤ length scratch.old }
    ensures { scratch.new ≡ cleared scratch.old }
{
    scratch[..SCRATCH_WORDS].fill(0);
}
