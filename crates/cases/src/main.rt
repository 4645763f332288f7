// Runs the script of standard input, a command a line, on one model, and prints each answer; a line that begins with `#` is
// printed as it stands, so that the output reads as a report.
#![tactic(auto)]

use model::implicit_model::Model;
use recorded::lines::next_line;
use script::answers::answer;
use std::io::{self, BufReader};

// A line run on the model, or printed.
fn run(rt: &(impl Print + Alloc), model: &mut Model, line: &[u8]) -> io::Result<()> {
    match line {
        [] => Ok(()),
        [b'#', ..] => {
            rt.write_all(line)?;
            println!(rt)
        }
        _ => {
            let text = format!(in rt.alloc(); "{}", answer(model, line))?;
            println!(rt; "{text}")
        }
    }
}

fn main(rt: HostRuntime) -> io::Result<()> {
    let mut input = BufReader::new(rt.alloc(), rt.reader())?;
    let mut line = Vec::new(rt.alloc());
    let mut model = held::reading::new();
    // Kept: what `next_line` lends lets no iterator drive the loop, and nothing says that the input ends, so the turns are counted. It stands in cases and in replay, since a function over both would take what is done with a line as a closure.
    for _ in 0..u64::MAX {
        let Some(command) = next_line(&mut input, &mut line)? else {
            break;
        };
        run(&rt, &mut model, command)?;
    }
    Ok(())
}
