ghost use Rattle.std.specs.Prelude.{get_or};
ghost use Rattle.states.specs.Parting.{OnSymbol, Lent, Parted};

use crate::keeping::place_in;
use crate::{Parts, Setting, Transition};
use classes::order::class_order;
use classes::square::dependency;
use derivatives::announce::outputs;
use derivatives::derivative::derive;

// A state with its label, on a symbol: the goals announced into `out`, the derivative into `goals`, the dependency among its goals into `dep`, and the
// rows of `dep` that begin its classes, in their order, into `order`.
pub fn part(
    setting: Setting,
    scratch: &[u16],
    transition: Transition,
    out: &mut [u32],
    goals: &mut [u16],
    dep: &mut [[bool; 96]; 96],
    order: &mut [u32],
) -> Parts
    requires { OnSymbol setting.symbols.now setting.tab.now setting.shapes scratch.now transition.state.0 transition.root.0 transition.symbol.0 × Lent out.old goals.old dep.old order.old }
    ensures { Parted setting.entry.tab.now setting.entry.shapes scratch.now transition.state.0 transition.symbol.0 (get_or setting.entry.symbols.now transition.symbol.0 0) result out.new goals.new dep.new order.new }
{
    let Transition {
        state,
        root,
        symbol,
    } = transition;
    let i = state.0 as usize;
    let k = setting.symbols[symbol.0 as usize] as u16;
    let at = place_in(i);
    let n = scratch[i] as usize;
    let tab = setting.tab;
    let announced = outputs(tab, scratch, at, n, root, symbol, out);
    let shapes = setting.shapes;
    let d = derive(tab, scratch, at, n, shapes, root, symbol, k, goals) / 3;
    dependency(tab, goals, d, dep);
    let classes = class_order(tab, goals, d, dep, order);
    Parts {
        announced,
        goals: d,
        classes,
    }
}
