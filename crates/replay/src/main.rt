// Runs recorded commands on our model and holds each answer to the one that the Rust gave: after a command, `= ANSWER` is what
// the Rust answered, and where docs/DIFFERENCES.md names a departure, `! CLASS ANSWER` is what ours has to be.
#![tactic(auto)]

ghost use Rattle.std.specs.Prelude.{◌++◌, Some, codes, decimal};

use model::implicit_model::Model;
use recorded::lines::next_line;
use script::answers::answer;
use std::fmt;
use std::io::{self, BufReader};

// How many answers were held to the Rust's, and how many of them are the same, differ as told, or are not explained.
// Kept: not recorded's, since what is told or not explained is neither another answer nor one that could not be read.
#[derive(Clone, Copy, Default)]
struct Tally {
    answers: u64,
    same: u64,
    told: u64,
    unexplained: u64,
}

impl fmt::Display for Tally {
    ghost output = { λ t. Some (decimal t.answers ++ (codes " answers of the Rust: " ++ (decimal t.same ++ (codes " the same, " ++ (decimal t.told ++ (codes " differ as docs/DIFFERENCES.md says, " ++ (decimal t.unexplained ++ codes " unexplained"))))))) };

    fn fmt<W: fmt::Write>(&self, f: &mut fmt::Formatter<W>) -> fmt::Result {
        let Tally {
            answers,
            same,
            told,
            unexplained,
        } = self;
        write!(
            f,
            "{answers} answers of the Rust: {same} the same, {told} differ as docs/DIFFERENCES.md says, {unexplained} unexplained"
        )
    }
}

// The model, our last answer, and whether it differs from the Rust's and no class has said so yet.
#[derive(Drop)]
struct Replay {
    model: Model,
    ours: String,
    open: bool,
    tally: Tally,
}

// What stands behind the class of a line.
fn behind_class(line: &[u8]) -> Option<&[u8]> {
    let words = line.get(2..)?;
    let space = words.iter().position(|byte| *byte == b' ')?;
    words.get(space + 1..)
}

impl Replay {
    // An answer that nothing explains: which one, and what ours is.
    fn complain(&mut self, rt: &impl Print) -> io::Result<()> {
        self.open = false;
        self.tally.unexplained = self.tally.unexplained.saturating_add(1);
        let ours = self.ours.as_str();
        println!(rt;
            "answer {} is not explained, ours is {ours}",
            self.tally.answers
        )
    }

    // The Rust's answer to the last command.
    fn hold_to(&mut self, answer: &[u8]) {
        self.tally.answers = self.tally.answers.saturating_add(1);
        self.open = answer != self.ours.as_bytes();
        if !self.open {
            self.tally.same = self.tally.same.saturating_add(1);
        }
    }

    // What ours has to be, where the Rust's is another. A departure that is not there is not explained either.
    fn tell(&mut self, rt: &impl Print, answer: &[u8]) -> io::Result<()> {
        if self.open && answer == self.ours.as_bytes() {
            self.open = false;
            self.tally.told = self.tally.told.saturating_add(1);
            return Ok(());
        }
        self.complain(rt)
    }

    // Ahead of the next command, or at the end: an answer that differs and has no class.
    fn settle(&mut self, rt: &impl Print) -> io::Result<()> {
        if self.open { self.complain(rt) } else { Ok(()) }
    }

    // A line: a command, or what it has to be answered, behind its mark and a space.
    fn take(&mut self, rt: &(impl Print + AllocGlobal), line: &[u8]) -> io::Result<()> {
        match line {
            [] | [b'#', ..] => Ok(()),
            [b'=', ..] => {
                self.hold_to(line.get(2..).unwrap_or(b""));
                Ok(())
            }
            [b'!', ..] => self.tell(rt, behind_class(line).unwrap_or(b"")),
            _ => {
                self.settle(rt)?;
                self.ours = format!(in rt.alloc(); "{}", answer(&mut self.model, line))?;
                Ok(())
            }
        }
    }
}

fn main(rt: HostRuntime) -> io::Result<()> {
    let mut input = BufReader::new(rt.alloc(), rt.reader())?;
    let mut line = Vec::new(rt.alloc());
    let mut replay = Replay {
        model: held::reading::new(),
        ours: String::new(rt.alloc()),
        open: false,
        tally: Tally::default(),
    };
    // Kept: what `next_line` lends lets no iterator drive the loop, and nothing says that the input ends, so the turns are counted. It stands in cases and in replay, since a function over both would take what is done with a line as a closure.
    for _ in 0..u64::MAX {
        let Some(taken) = next_line(&mut input, &mut line)? else {
            break;
        };
        replay.take(&rt, taken)?;
    }
    replay.settle(&rt)?;
    println!(rt; "{}", replay.tally)
}
