// The number of a component, worked along a line: each from the numbers of its inputs, which must have been worked before it.
ghost use Rattle.std.specs.Prelude.{IfSome};
ghost use Rattle.direct.specs.Along.{Brings, Value, Works};

use finding::component_in_row;
use geometry::vec3f::Vec3;
use standing::{Standing, Wire};

// The number that a wire brings, of those worked so far; NaN where there is no such place.
// Kept: evaluating looks up an input's number too, but its order has worked each input by then; here one may not be worked yet, and then there is no answer.
fn input(numbers: &[Option<f64>; 64], wire: Wire) -> Option<f64>
    ensures { IfSome result (Brings numbers.now wire) }
{
    match wire {
        Wire::To(row) => *numbers.get(row as usize)?,
        Wire::Past => Some(f64::NAN),
        Wire::Open => None,
    }
}

// The number of the component in row x, from those that its wires bring.
fn number_at(standing: &Standing, numbers: &[Option<f64>; 64], x: usize, p: Vec3) -> Option<f64>
    ensures { IfSome result (Value standing.now.bytes.now standing.now.keys.count standing.now.wires.0 numbers.now x p) }
{
    if standing.count() <= x {
        return None;
    }
    let component = component_in_row(standing.bytes, x)?;
    let [first, second, third] = standing.wires.0[x];
    let a = input(numbers, first)?;
    let b = input(numbers, second)?;
    let c = input(numbers, third)?;
    Some(component.compute(p, a, b, c))
}

// The number of the component in row t, where all on the line can be worked, and it is among them.
pub(crate) fn number_along(standing: &Standing, line: &[usize], t: usize, p: Vec3) -> Option<f64>
    ensures { IfSome result (Works standing.now.bytes.now standing.now.keys.count standing.now.wires.0 p t) }
{
    let mut numbers: [Option<f64>; 64] = [None; 64];
    for x in line {
        let number = number_at(standing, &numbers, *x, p)?;
        numbers[*x] = Some(number);
    }
    *numbers.get(t)?
}
