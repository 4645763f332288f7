// A question: a component and three input numbers, which are the point too.
use crate::kind::Kind;
use crate::numbers::{number, range};
use component::model_component::Component;
use component::range::Range;
use float::bits::bits_of;
use geometry::vec3f::Vec3;
use shapes::sphere::Sphere;
use shapes::torus::Torus;
use std::fmt;

#[derive(Clone, Copy)]
pub struct Question {
    component: Component,
    a: f64,
    b: f64,
    c: f64,
}

impl Question {
    fn new(component: Component, a: f64, b: f64, c: f64) -> Question {
        Question { component, a, b, c }
    }

    // Document 01's P5 and on.
    fn case(n: usize) -> Question {
        match n {
            0 => Question::new(Component::BooleanDifference, 1.0, -2.0, 0.0),
            1 => Question::new(Component::BooleanDifference, -2.0, 1.0, 0.0),
            2 => Question::new(Component::Thickness(2.0), -3.0, 0.0, 0.0),
            3 => Question::new(Component::Lerp(0.25), 2.0, 6.0, 0.0),
            4 => Question::new(
                Component::remap(Range::new(0.0, 10.0), Range::new(0.0, 1.0)),
                5.0,
                0.0,
                0.0,
            ),
            _ => Question::new(Component::BooleanUnion, f64::NAN, 7.0, 0.0),
        }
    }

    // The nth question of a kind. The first 17 * 17 have all pairs of numbers as a and b, with c = 0, and the first 17 * 17 * 17 all
    // triples. A parameter is the first of the three that is no input. Remap has every range onto every range.
    // Kept: a match, for each kind makes its component of other numbers; closures by kind would be these arms again, in a list beside the kinds that could miss one.
    pub fn nth(kind: Kind, n: usize) -> Question {
        let x = number(n);
        let y = number(n / 17);
        let z = number(n / (17 * 17));
        let component = match kind {
            Kind::Case => return Question::case(n),
            Kind::Constant => Component::Constant(x),
            Kind::Sphere => Component::Sphere(Sphere::at_coord(0.25, -1.0, 2.0, 0.1)),
            Kind::Torus => Component::Torus(Torus::at_coord(0.25, -1.0, 2.0, 2.0, 0.1)),
            Kind::Multiply => Component::Multiply,
            Kind::Add => Component::Add,
            Kind::Subtract => Component::Subtract,
            Kind::Divide => Component::Divide,
            Kind::Lerp => Component::Lerp(z),
            Kind::VariableLerp => Component::VariableLerp,
            Kind::Remap => Component::remap(range(n / 17), range(n / 204)),
            Kind::BooleanUnion => Component::BooleanUnion,
            Kind::BooleanIntersection => Component::BooleanIntersection,
            Kind::BooleanDifference => Component::BooleanDifference,
            Kind::Offset => Component::Offset(y),
            Kind::Thickness => Component::Thickness(y),
        };
        Question::new(component, x, y, z)
    }

    // The bits of what the crate component answers.
    pub fn answered(self) -> u64 {
        let point = Vec3::new(self.a, self.b, self.c);
        bits_of(self.component.compute(point, self.a, self.b, self.c))
    }
}

// Kept: word_writing's `FloatWord` writes the same 16 digits, but would be a dependency for this one line.
fn print<W: fmt::Write>(f: &mut fmt::Formatter<W>, x: f64) -> fmt::Result {
    write!(f, " {:016x}", bits_of(x))
}

// The parameters of Lerp, Offset, Thickness and Remap, and the three inputs.
impl fmt::Display for Question {
    fn fmt<W: fmt::Write>(&self, f: &mut fmt::Formatter<W>) -> fmt::Result {
        match self.component {
            Component::Lerp(x) | Component::Offset(x) | Component::Thickness(x) => print(f, x)?,
            Component::Remap {
                from_min,
                from_max,
                to_min,
                to_max,
            } => {
                print(f, from_min)?;
                print(f, from_max)?;
                print(f, to_min)?;
                print(f, to_max)?;
            }
            _ => {}
        }
        f.write_str(" of")?;
        print(f, self.a)?;
        print(f, self.b)?;
        print(f, self.c)
    }
}
