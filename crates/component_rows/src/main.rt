// Runs document 01's cases P5 to P10, and every kind of component on pairs or triples of a table of numbers, and prints each
// that differs from the recorded answers of standard input, and how many agreed.
#![tactic(auto)]

mod answers;
mod kind;
mod numbers;
mod question;

use kind::Kind;
use question::Question;
use recorded::{Outcome, Tally};
use std::io;

const PAIRS: usize = 17 * 17;

const TRIPLES: usize = 17 * 17 * 17;

// How many questions of each kind.
const COUNTS: [(Kind, usize); 16] = [
    (Kind::Case, 6),
    (Kind::Constant, PAIRS),
    (Kind::Sphere, PAIRS),
    (Kind::Torus, PAIRS),
    (Kind::Multiply, PAIRS),
    (Kind::Add, PAIRS),
    (Kind::Subtract, PAIRS),
    (Kind::Divide, PAIRS),
    (Kind::Lerp, TRIPLES),
    (Kind::VariableLerp, TRIPLES),
    (Kind::Remap, 2448),
    (Kind::BooleanUnion, PAIRS),
    (Kind::BooleanIntersection, PAIRS),
    (Kind::BooleanDifference, PAIRS),
    (Kind::Offset, PAIRS),
    (Kind::Thickness, PAIRS),
];

// Asks the nth question of a kind, counts the outcome, and prints it where the recorded answer is another or not read.
fn judge(
    rt: &impl Print,
    tally: &mut Tally,
    kind: Kind,
    n: usize,
    answer: Option<u64>,
) -> io::Result<()> {
    let question = Question::nth(kind, n);
    let got = question.answered();
    match answer {
        Some(bits) if bits == got => {
            tally.count(Outcome::Agreed);
            Ok(())
        }
        Some(bits) => {
            tally.count(Outcome::Differed);
            let row = tally.rows;
            println!(rt; "row {row}, {kind}{question}: {bits:016x} recorded, got {got:016x}")
        }
        None => {
            tally.count(Outcome::Unread);
            let row = tally.rows;
            println!(rt; "row {row}, {kind}: unread")
        }
    }
}

fn main(rt: HostRuntime) -> io::Result<()> {
    let mut input = rt.reader();
    let mut tally = Tally::default();
    for (kind, count) in COUNTS {
        for n in 0..count {
            judge(&rt, &mut tally, kind, n, answers::next(&mut input)?)?;
        }
    }
    println!(rt; "{tally}")?;
    if answers::is_left(&mut input)? {
        println!(rt; "more answers than questions")?;
    }
    Ok(())
}
