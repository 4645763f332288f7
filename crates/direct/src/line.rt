// A line of the components that a target needs, inputs ahead of users. Nothing is promised of it but its size: who goes along it checks each step.
ghost use Rattle.std.specs.Prelude.{◌≤◌};

use standing::Wire;

// Rows in order, as many as there are components at most.
// Kept: memory is fixed, so the rows stand in an array with their count beside it. The node list of crate nodes is no such line: it holds each node once, by marks, and gives none up again.
#[derive(Clone, Copy)]
pub(crate) struct Rows {
    at: [usize; 64],
    count: usize,
    ghost few: { count ≤ 64 },
}

impl Rows {
    fn new() -> Rows {
        Rows {
            at: [0; 64],
            count: 0,
        }
    }

    pub(crate) fn as_slice(&self) -> &[usize] {
        &self.at[..self.count]
    }

    fn last(&self) -> Option<usize> {
        self.as_slice().last().copied()
    }

    // Whether there was room for one row more.
    fn push(&mut self, row: usize) -> bool {
        if self.count == 64 {
            return false;
        }
        self.at[self.count] = row;
        self.count += 1;
        true
    }

    fn pop(&mut self) {
        if 0 < self.count {
            self.count -= 1;
        }
    }
}

// The first input that is not placed.
fn waits_for(inputs: [Wire; 3], placed: &[bool; 64]) -> Option<usize> {
    inputs.iter().find_map(|wire| match *wire {
        Wire::To(row) if placed.get(row as usize) == Some(&false) => Some(row as usize),
        _ => None,
    })
}

// The way goes from the target to an input that is not placed, from there to one of its own, and on. A component that waits for none joins the line, and the way goes back to the one before. A component is put on the way and taken off it once, so 128 turns are enough; on a cycle the way has no room left, and the line ends without the target.
pub(crate) fn line_of(wires: &[[Wire; 3]; 64], target: usize) -> Rows {
    let mut line = Rows::new();
    let mut placed = [false; 64];
    let mut way = Rows::new();
    way.push(target);
    for _ in 0..128 {
        let Some(x) = way.last().filter(|x| *x < 64) else {
            break;
        };
        if let Some(y) = waits_for(wires[x], &placed) {
            if !way.push(y) {
                break;
            }
        } else {
            placed[x] = true;
            line.push(x);
            way.pop();
        }
    }
    line
}
