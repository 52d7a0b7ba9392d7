#![tactic(auto)]

ghost use Rattle.std.specs.Prelude.{◌≡◌};
ghost use Rattle.kinds.specs.Positions.{pad_to, decode};
ghost use Rattle.kinds.specs.Kinds.{root, child_of, is_good, length_of, comes_before};
ghost use Rattle.kinds.specs.Reasons.{number_of};

pub mod limits; // the numbers of document 01
pub mod slices; // comparing and copying words

// The number of a plan's state.
#[derive(Clone, Copy, PartialEq, Eq)]
pub struct State(pub u16);

// The number of a score's node.
#[derive(Clone, Copy, PartialEq, Eq)]
pub struct Node(pub u16);

// The number of a shape.
#[derive(Clone, Copy, PartialEq, Eq)]
pub struct Shape(pub u16);

// The number of a symbol.
#[derive(Clone, Copy, PartialEq, Eq)]
pub struct Symbol(pub u16);

// The code of a position.
#[derive(Clone, Copy, PartialEq, Eq)]
pub struct Position(pub u16);

// The shapes of a folio: their words, and the index at which each begins.
#[derive(Clone, Copy)]
pub struct Shapes<'a> {
    pub words: &'a [u16],
    pub starts: &'a [u16],
}

// Its score: the words, and the span of each node.
#[derive(Clone, Copy)]
pub struct Score<'a> {
    pub words: &'a [u16],
    pub spans: &'a [u16],
}

impl Position {
    pub const ROOT: Position = Position(0);

    pub const LARGEST: Position = Position(15624);

    // The root.
    pub fn root() -> Position
        ensures { result ≡ root }
    {
        Position::ROOT
    }

    // The position followed by a child number.
    pub fn child(self, i: u16) -> Option<Position>
        ensures { result ≡ child_of self i }
    {
        let good = self.is_good();
        if !good {
            return None;
        }
        if i == 0 {
            return None;
        }
        let beyond = 4 < i;
        if beyond {
            return None;
        }
        let code = 5 * self.0 as u32 + i as u32;
        let top = Position::LARGEST.0 as u32;
        if top < code {
            return None;
        }
        Some(Position(code as u16))
    }

    // Whether it is the code of a position in use.
    pub fn is_good(self) -> bool
        ensures { result ≡ is_good self }
    {
        if Position::LARGEST.0 < self.0 {
            return false;
        }
        let mut rest = self.0;
        // A while: the code is divided, no item is visited.
        while 0 < rest {
            if rest % 5 == 0 {
                return false;
            }
            rest /= 5;
        }
        true
    }

    // How many numbers it has.
    pub fn length(self) -> u16
        ensures { result ≡ length_of self }
    {
        let mut rest = self.0;
        let mut n = 0;
        // A while, as in `is_good`.
        while 0 < rest {
            rest /= 5;
            n += 1;
        }
        n
    }

    // Document order.
    pub fn before(self, other: Position) -> bool
        ensures { result ≡ comes_before self other }
    {
        let mine = padded(self);
        let others = padded(other);
        mine < others || mine == others && self.length() < other.length()
    }
}

// The code followed by zeros, seven digits in all.
fn padded(p: Position) -> u32
    ensures { result ≡ pad_to 7 (decode p.0) }
{
    let mut code = p.0 as u32;
    for _ in p.length()..7 {
        code *= 5;
    }
    code
}

// Why a call is refused: a case for each number of the table of refusals.
#[derive(Clone, Copy, PartialEq, Eq)]
pub enum Reason {
    Short,
    Long,
    EndBytes,
    Trailer,
    Symbols,
    Children,
    ShapeWord,
    ShapeEnds,
    LoneBlank,
    ShapeNodes,
    ShapeDepth,
    Shapes,
    ScoreWord,
    ScoreEnds,
    ScoreDepth,
    Surplus,
    ScoreNodes,
    Tables,
    BadShapes,
    ManyGoals,
    ManyStates,
    LongPlan,
    ShortScratch,
    ShortBuffers,
    BadScore,
    NoSuchItem,
    OutOfRange,
    NoSuchMatch,
    NotThere,
    IsFinished,
    NoTree,
    PastLimits,
    ShortScore,
}

// A reason, and the place at which it is given.
#[derive(Clone, Copy, PartialEq, Eq)]
pub struct Refusal(pub Reason, pub usize);

// The number of a reason in that table.
pub fn number(reason: Reason) -> u16
    ensures { result ≡ number_of reason }
{
    match reason {
        Reason::Short => 1,
        Reason::Long => 2,
        Reason::EndBytes => 3,
        Reason::Trailer => 4,
        Reason::Symbols => 5,
        Reason::Children => 6,
        Reason::ShapeWord => 7,
        Reason::ShapeEnds => 8,
        Reason::LoneBlank => 9,
        Reason::ShapeNodes => 10,
        Reason::ShapeDepth => 11,
        Reason::Shapes => 12,
        Reason::ScoreWord => 13,
        Reason::ScoreEnds => 14,
        Reason::ScoreDepth => 15,
        Reason::Surplus => 16,
        Reason::ScoreNodes => 17,
        Reason::Tables => 18,
        Reason::BadShapes => 19,
        Reason::ManyGoals => 20,
        Reason::ManyStates => 21,
        Reason::LongPlan => 22,
        Reason::ShortScratch => 23,
        Reason::ShortBuffers => 30,
        Reason::BadScore => 31,
        Reason::NoSuchItem => 32,
        Reason::OutOfRange => 34,
        Reason::NoSuchMatch => 35,
        Reason::NotThere => 40,
        Reason::IsFinished => 41,
        Reason::NoTree => 42,
        Reason::PastLimits => 43,
        Reason::ShortScore => 44,
    }
}
