// Runs the rows of standard input through the crate float, prints each that differs from its recorded answer, and how many agreed.
#![tactic(auto)]

mod row;

use recorded::lines::read_start;
use recorded::{Outcome, Tally};
use row::Row;
use std::io::{self, BufReader};

// The bytes of a line past these are left out: a row is shorter, so a line that fills them is none, whatever follows.
const LONGEST: usize = 64;

// Counts what became of a row, and prints the line where it could not be read or its recorded answer is another.
fn judge(rt: &impl Print, tally: &mut Tally, line: &[u8]) -> io::Result<()> {
    let Some(row) = Row::parse(line) else {
        tally.count(Outcome::Unread);
        print!(rt; "row {} unread: ", tally.rows)?;
        rt.write_all(line)?;
        return println!(rt);
    };
    let got = row.answered();
    if got == row.answer {
        tally.count(Outcome::Agreed);
        return Ok(());
    }
    tally.count(Outcome::Differed);
    print!(rt; "row {} differs: ", tally.rows)?;
    rt.write_all(line)?;
    println!(rt; " recorded, got {got:016x}")
}

fn main(rt: HostRuntime) -> io::Result<()> {
    let mut input = BufReader::new(rt.alloc(), rt.reader())?;
    let mut line = Vec::new(rt.alloc());
    let mut tally = Tally::default();
    // Kept: the lines are read into one Vec, which no iterator lends, and nothing says that the input ends, so the turns are counted.
    for _ in 0..u64::MAX {
        let fed = read_start(&mut input, &mut line, LONGEST)?;
        if fed || !line.is_empty() {
            judge(&rt, &mut tally, line.as_slice())?;
        }
        if !fed {
            break;
        }
    }
    println!(rt; "{tally}")
}
