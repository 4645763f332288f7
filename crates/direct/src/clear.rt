// Whether the walk that `add_input` makes from a component is clear, by the wires. A yes is right; where what it reaches has a cycle, the answer is no.
ghost use Rattle.std.specs.Prelude.{◌≡◌, true};
ghost use Rattle.direct.specs.Along.{Served, Ready, Clear};

use crate::line::line_of;
use standing::Wire;

// Whether a place waits for nothing: there is no such place, or its component is done.
fn is_served(done: &[bool; 64], wire: Wire) -> bool
    ensures { result ≡ true → Served done.now wire }
{
    match wire {
        Wire::To(row) => row < 64 && done[row as usize],
        Wire::Past => true,
        Wire::Open => false,
    }
}

// Whether there is a component in row x, one of the first n, all of whose places are served.
fn is_ready(wires: &[[Wire; 3]; 64], done: &[bool; 64], n: usize, x: usize) -> bool
    ensures { result ≡ true → Ready wires.now done.now n x }
{
    if n <= x || 64 <= x {
        return false;
    }
    wires[x].iter().all(|wire| is_served(done, *wire))
}

// Whether the walk from one component, of the first n, meets neither the target nor an unassigned place.
// Kept: wires and a count. With a `Standing`, which only `wired` makes, a caller could no longer ask of any wires.
pub fn is_clear(wires: &[[Wire; 3]; 64], n: usize, target: usize, from: usize) -> bool
    ensures { result ≡ true → Clear wires.now n target from }
{
    if 64 < n {
        return false;
    }
    let line = line_of(wires, from);
    let mut done = [false; 64];
    for x in line.as_slice() {
        if *x == target || !is_ready(wires, &done, n, *x) {
            return false;
        }
        done[*x] = true;
    }
    from < 64 && done[from]
}
