#![tactic(auto)]
// Prints what the plan's readers, `subtree`, `follow` and the positions' own calls say of the sample, and of places that are not there.
use bufferstone::{
    Asked, Lengths, Node, Position, Reason, Shape, State, Symbol, announcement_at, announcement_of,
    equal, follow, label_at, label_of, lengths_at, lengths_of, number, subtree, successor_at,
    successor_of,
};
use running::sample::{PLAN, SCORE, SHAPES, SPANS, SYMBOLS};
use running::showing::show_spaced;
use std::io;

fn main(rt: HostRuntime) -> io::Result<()> {
    for s in 0..4 {
        show_state(&rt, State(s))?;
    }
    for x in 0..11 {
        show_subtrees(&rt, x)?;
    }
    for c in 0..40 {
        show_position(&rt, Position(c))?;
    }
    show_position(&rt, Position::LARGEST)?;
    show_position(&rt, Position(15625))?;
    show_orders(&rt)?;
    show_equal(&rt)
}

// A state's label, by the words and by a view of them; then what it says on each symbol, and on one that is not there.
fn show_state(rt: &HostRuntime, state: State) -> io::Result<()> {
    let plan = PLAN;
    print!(rt; "state {}", state.0)?;
    show_label(rt, label_of(&plan, 3, 3, state))?;
    show_label(rt, label_at(&plan, 3, 3, state))?;
    show_label(rt, label_of(&plan, 4, 3, state))?;
    print!(rt; "\n")?;
    for symbol in 0..4 {
        show_block(rt, &plan, state, Symbol(symbol))?;
    }
    Ok(())
}

fn show_label(rt: &HostRuntime, answer: Result<Position, Reason>) -> io::Result<()> {
    match answer {
        Ok(p) => print!(rt; " label {}", p.0),
        Err(why) => refused(rt, why),
    }
}

// How long a block is, and its pairs, one more of each than there are: by the words and by a view of them.
fn show_block(rt: &HostRuntime, plan: &[u16], state: State, symbol: Symbol) -> io::Result<()> {
    print!(rt; "  symbol {}", symbol.0)?;
    show_lengths(rt, lengths_of(plan, 3, 3, state, symbol))?;
    show_lengths(rt, lengths_at(plan, 3, 3, state, symbol))?;
    for i in 0..3 {
        show_announcement(rt, announcement_of(plan, 3, 3, state, symbol, i))?;
        show_announcement(rt, announcement_at(plan, 3, 3, state, symbol, i))?;
        show_successor(rt, successor_of(plan, 3, 3, state, symbol, i))?;
        show_successor(rt, successor_at(plan, 3, 3, state, symbol, i))?;
    }
    print!(rt; "\n")
}

fn show_lengths(rt: &HostRuntime, answer: Result<Lengths, Reason>) -> io::Result<()> {
    match answer {
        Ok(l) => {
            print!(rt;
                " announcements {} successors {}",
                l.announcements, l.successors
            )
        }
        Err(why) => refused(rt, why),
    }
}

fn show_announcement(
    rt: &HostRuntime,
    answer: Result<(Shape, Position), Reason>,
) -> io::Result<()> {
    match answer {
        Ok((shape, p)) => print!(rt; " announces {} at {}", shape.0, p.0),
        Err(why) => refused(rt, why),
    }
}

fn show_successor(rt: &HostRuntime, answer: Result<(State, Position), Reason>) -> io::Result<()> {
    match answer {
        Ok((state, p)) => print!(rt; " goes to {} by {}", state.0, p.0),
        Err(why) => refused(rt, why),
    }
}

// The subtree at a word of the shapes, and at a node of the score.
fn show_subtrees(rt: &HostRuntime, x: u16) -> io::Result<()> {
    let symbols = SYMBOLS;
    let shapes = SHAPES;
    let score = SCORE;
    print!(rt; "shape word {x}:")?;
    show_spaced(
        rt,
        subtree(Asked::Shapes(usize::from(x)), &symbols, &shapes, &score),
    )?;
    print!(rt; " node {x}:")?;
    show_spaced(
        rt,
        subtree(Asked::Score(Node(x)), &symbols, &shapes, &score),
    )?;
    print!(rt; "\n")
}

// Whether a position is in use, how long it is, its children, and where it leads from the score's root.
fn show_position(rt: &HostRuntime, p: Position) -> io::Result<()> {
    let spans = SPANS;
    print!(rt;
        "position {} good {} length {}",
        p.0,
        yes_or_no(p.is_good()),
        p.length()
    )?;
    for i in [0, 1, 4, 5] {
        show_child(rt, p.child(i))?;
    }
    match follow(&spans, 10, Node(0), p) {
        Some(x) => println!(rt; " leads to {}", x.0),
        None => println!(rt; " leads nowhere"),
    }
}

fn show_child(rt: &HostRuntime, answer: Option<Position>) -> io::Result<()> {
    match answer {
        Some(p) => print!(rt; " {}", p.0),
        None => print!(rt; " -"),
    }
}

// Document order: the root first, what is under a position behind it, and children from left to right.
fn show_orders(rt: &HostRuntime) -> io::Result<()> {
    print!(rt;
        "root before 1 {}",
        yes_or_no(Position::ROOT.before(Position(1)))
    )?;
    print!(rt;
        " 1 before 1.2 {}",
        yes_or_no(Position(1).before(Position(7)))
    )?;
    print!(rt;
        " 1.2 before 2 {}",
        yes_or_no(Position(7).before(Position(2)))
    )?;
    print!(rt;
        " 2 before 1.2 {}",
        yes_or_no(Position(2).before(Position(7)))
    )?;
    println!(rt;
        " 2 before 2 {}",
        yes_or_no(Position(2).before(Position(2)))
    )
}

fn show_equal(rt: &HostRuntime) -> io::Result<()> {
    let one = PLAN;
    let mut other = PLAN;
    print!(rt; "equal {}", yes_or_no(equal(&one, &other)))?;
    other[55] = 12;
    println!(rt;
        " with another last word {}",
        yes_or_no(equal(&one, &other))
    )
}

fn refused(rt: &HostRuntime, why: Reason) -> io::Result<()> {
    print!(rt; " refused {}", number(why))
}

fn yes_or_no(yes: bool) -> &'static str {
    if yes { "yes" } else { "no" }
}
