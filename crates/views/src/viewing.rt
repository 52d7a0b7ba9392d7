ghost use Rattle.std.specs.Prelude.{◌≡◌};
ghost use Rattle.readers.specs.PlanParts.{label_of, lengths_of, announcement_of, successor_of};

use crate::PlanView;
use kinds::{Position, Reason, Shape, State, Symbol};
use readers::Lengths;
use readers::reading::{announcement_of, label_of, lengths_of, successor_of};

// From plain parameters: who calls these holds no view.
pub fn label_at(words: &[u16], states: u16, symbols: u16, state: State) -> Result<Position, Reason>
    ensures { result ≡ label_of words.now states symbols state.0 }
{
    label_in(view(words, states, symbols), state)
}

pub fn lengths_at(
    words: &[u16],
    states: u16,
    symbols: u16,
    state: State,
    symbol: Symbol,
) -> Result<Lengths, Reason>
    ensures { result ≡ lengths_of words.now states symbols state.0 symbol.0 }
{
    lengths_in(view(words, states, symbols), state, symbol)
}

pub fn announcement_at(
    words: &[u16],
    states: u16,
    symbols: u16,
    state: State,
    symbol: Symbol,
    i: usize,
) -> Result<(Shape, Position), Reason>
    ensures { result ≡ announcement_of words.now states symbols state.0 symbol.0 i }
{
    announcement_in(view(words, states, symbols), state, symbol, i)
}

pub fn successor_at(
    words: &[u16],
    states: u16,
    symbols: u16,
    state: State,
    symbol: Symbol,
    i: usize,
) -> Result<(State, Position), Reason>
    ensures { result ≡ successor_of words.now states symbols state.0 symbol.0 i }
{
    successor_in(view(words, states, symbols), state, symbol, i)
}

pub fn view<'a>(words: &'a [u16], states: u16, symbols: u16) -> PlanView<'a>
    ensures { (result.words ≡ words.entry) × (result.states ≡ states) × (result.symbols ≡ symbols) }
{
    PlanView {
        words,
        states,
        symbols,
    }
}

pub fn label_in<'a>(v: PlanView<'a>, state: State) -> Result<Position, Reason>
    ensures { result ≡ label_of v.entry.words.now v.entry.states v.entry.symbols state.0 }
{
    label_of(v.words, v.states, v.symbols, state)
}

pub fn lengths_in<'a>(v: PlanView<'a>, state: State, symbol: Symbol) -> Result<Lengths, Reason>
    ensures { result ≡ lengths_of v.entry.words.now v.entry.states v.entry.symbols state.0 symbol.0 }
{
    lengths_of(v.words, v.states, v.symbols, state, symbol)
}

pub fn announcement_in<'a>(
    v: PlanView<'a>,
    state: State,
    symbol: Symbol,
    i: usize,
) -> Result<(Shape, Position), Reason>
    ensures { result ≡ announcement_of v.entry.words.now v.entry.states v.entry.symbols state.0 symbol.0 i }
{
    announcement_of(v.words, v.states, v.symbols, state, symbol, i)
}

pub fn successor_in<'a>(
    v: PlanView<'a>,
    state: State,
    symbol: Symbol,
    i: usize,
) -> Result<(State, Position), Reason>
    ensures { result ≡ successor_of v.entry.words.now v.entry.states v.entry.symbols state.0 symbol.0 i }
{
    successor_of(v.words, v.states, v.symbols, state, symbol, i)
}
