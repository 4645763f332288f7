// Prints the distance from some points to a sphere, a dot and a torus: for reading, and by its bits.
#![tactic(auto)]

mod text;

use float::bits::{bits_of, float_of};
use shapes::sphere::Sphere;
use shapes::torus::Torus;
use std::io;
use text::readable;

const TITLE: &str = "Distance from a point to a shape: below 0 inside, 0 on its surface.
  sphere  centre (0, 0, 0), radius 1
  dot     centre (0, 0, 0), radius 0
  torus   centre (0, 0, 0), r 5, t 1, around the y axis

shape              x             y             z      distance  its 64 bits";

// One line of the table.
fn line(
    rt: &(impl Print + AllocGlobal),
    shape: &str,
    (x, y, z): (f64, f64, f64),
    distance: f64,
) -> io::Result<()> {
    print!(rt; "{shape:6}")?;
    for number in [x, y, z, distance] {
        let text = readable(rt.alloc(), number)?;
        print!(rt; "{text:>14}")?;
    }
    println!(rt; "  {:016x}", bits_of(distance))
}

fn main(rt: HostRuntime) -> io::Result<()> {
    println!(rt; "{TITLE}")?;
    let sphere = Sphere::at_coord(0.0, 0.0, 0.0, 1.0);
    for (x, y, z) in [
        (3.0, 4.0, 0.0),
        (0.0, 1.0, 0.0),
        (0.5, 0.0, 0.0),
        (0.1, 0.1, 0.3),
        (f64::INFINITY, 0.0, 0.0),
        (f64::NAN, 0.0, 0.0),
    ] {
        line(&rt, "sphere", (x, y, z), sphere.eval(x, y, z))?;
    }
    let dot = Sphere::at_coord(0.0, 0.0, 0.0, 0.0);
    // 2^-537, whose square 2^-1074 is the least double above 0
    let x = float_of(0x1E60_0000_0000_0000);
    line(&rt, "dot", (x, 0.0, 0.0), dot.eval(x, 0.0, 0.0))?;
    let torus = Torus::at_coord(0.0, 0.0, 0.0, 5.0, 1.0);
    for (x, y, z) in [
        (3.0, 0.0, 4.0),
        (5.0, 1.0, 0.0),
        (5.5, 0.0, 0.0),
        (0.0, 0.0, 0.0),
        (-8.0, 2.5, 0.75),
        (5.0, 0.0, f64::NAN),
    ] {
        line(&rt, "torus", (x, y, z), torus.eval(x, y, z))?;
    }
    Ok(())
}
