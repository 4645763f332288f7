// A component of a form model.
ghost use Rattle.std.specs.Prelude.{◌≡◌};
ghost use Rattle.component.specs.Kind.{is_function, is_operation};
ghost use Rattle.component.specs.Value.{input_count, compute};

use crate::math;
use crate::range::Range;
use float::extrema::{max, min};
use geometry::vec3f::Vec3;
use shapes::sphere::Sphere;
use shapes::torus::Torus;

#[derive(Clone, Copy)]
pub enum Component {
    Constant(f64),
    Sphere(Sphere),
    Torus(Torus),
    Multiply,
    Add,
    Subtract,
    Divide,
    Lerp(f64),
    VariableLerp,
    // Kept: document 01 names the four numbers, a parameter each; as two of `Range`, each definition of specs/ that reads or sets one would reach through a range, and be no plainer.
    Remap {
        from_min: f64,
        from_max: f64,
        to_min: f64,
        to_max: f64,
    },
    BooleanUnion,
    BooleanIntersection,
    BooleanDifference,
    Offset(f64),
    Thickness(f64),
}

impl Component {
    // The operation that maps one range to the other.
    pub fn remap(from: Range, to: Range) -> Component
        ensures { result ≡ Component.Remap from.min from.max to.min to.max }
    {
        Component::Remap {
            from_min: from.min,
            from_max: from.max,
            to_min: to.min,
            to_max: to.max,
        }
    }

    // How many inputs it takes.
    pub fn input_count(self) -> usize
        ensures { result ≡ input_count self }
    {
        match self {
            Component::Constant(_) | Component::Sphere(_) | Component::Torus(_) => 0,
            Component::Remap { .. } | Component::Offset(_) | Component::Thickness(_) => 1,
            Component::Multiply
            | Component::Add
            | Component::Subtract
            | Component::Divide
            | Component::Lerp(_)
            | Component::BooleanUnion
            | Component::BooleanIntersection
            | Component::BooleanDifference => 2,
            Component::VariableLerp => 3,
        }
    }

    // Whether it takes inputs.
    pub fn is_operation(self) -> bool
        ensures { result ≡ is_operation self }
    {
        0 < self.input_count()
    }

    // Whether it is a sphere or a torus.
    pub fn is_function(self) -> bool
        ensures { result ≡ is_function self }
    {
        matches!(self, Component::Sphere(_) | Component::Torus(_))
    }

    // Its number at p, where a, b, c are the numbers of its inputs 0, 1, 2.
    // Kept: three numbers and no array, for each case of the definition would read its inputs by index, and say no more plainly what it computes.
    #[tactic(auto, unfolding(crate::specs::Value::compute))]
    pub fn compute(self, p: Vec3, a: f64, b: f64, c: f64) -> f64
        ensures { result ≡ compute self p a b c }
    {
        match self {
            Component::Constant(v) => v,
            Component::Sphere(s) => s.eval(p.x, p.y, p.z),
            Component::Torus(t) => t.eval(p.x, p.y, p.z),
            Component::Multiply => a * b,
            Component::Add => a + b,
            Component::Subtract => a - b,
            Component::Divide => a / b,
            Component::Lerp(factor) => math::lerp(factor, a, b),
            Component::VariableLerp => math::lerp(c, a, b),
            Component::Remap {
                from_min,
                from_max,
                to_min,
                to_max,
            } => math::remap(
                Range::new(from_min, from_max),
                Range::new(to_min, to_max),
                a,
            ),
            Component::BooleanUnion => min(a, b),
            Component::BooleanIntersection => max(a, b),
            Component::BooleanDifference => max(a, -b),
            Component::Offset(distance) => a - distance,
            Component::Thickness(t) => math::thickness(t, a),
        }
    }
}
