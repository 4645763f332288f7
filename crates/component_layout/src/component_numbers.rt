// A component as its kind and five numbers, and as six words: what `component_words` reads.
ghost use Rattle.std.specs.Prelude.{◌≡◌};
ghost use Rattle.std.specs.Float.Ieee as Ieee;
ghost use Rattle.std.specs.Float.{binary64};
ghost use Rattle.component_layout.specs.Numbers.{four, one, plain, numbers_of, Worded};

use component::model_component::Component;

// A kind and its five values: numbers, or their bits. Those that a kind does not use are +0.
// Kept: a number for the kind, since the C interface and the layout have one; fields a to e and no array, since the definitions of specs/ name them so, and would read each by index.
#[derive(Clone, Copy, Default, PartialEq, Eq)]
pub struct Numbered<T> {
    pub kind: u64,
    pub a: T,
    pub b: T,
    pub c: T,
    pub d: T,
    pub e: T,
}

pub type Numbers = Numbered<f64>;

pub type ComponentWords = Numbered<u64>;

impl<T> Numbered<T> {
    // f of each of the five, under the same kind.
    pub(crate) fn map<U, F: Fn(T) -> U>(self, f: F) -> Numbered<U>
        requires { F.IsAlwaysCallable f }
        ensures kind { result.kind ≡ self.kind }
        ensures a { F.post f self.a result.a }
        ensures b { F.post f self.b result.b }
        ensures c { F.post f self.c result.c }
        ensures d { F.post f self.d result.d }
        ensures e { F.post f self.e result.e }
    {
        let Numbered {
            kind,
            a,
            b,
            c,
            d,
            e,
        } = self;
        Numbered {
            kind,
            a: f(a),
            b: f(b),
            c: f(c),
            d: f(d),
            e: f(e),
        }
    }
}

fn plain(kind: u64) -> Numbers
    ensures { result ≡ plain kind }
{
    Numbers {
        kind,
        ..Numbers::default()
    }
}

fn one(kind: u64, a: f64) -> Numbers
    ensures { result ≡ one kind a }
{
    Numbers { a, ..plain(kind) }
}

fn four(kind: u64, a: f64, b: f64, c: f64, d: f64) -> Numbers
    ensures { result ≡ four kind a b c d }
{
    Numbers {
        b,
        c,
        d,
        ..one(kind, a)
    }
}

// The kind and the numbers of a component.
#[tactic(auto, unfolding(crate::specs::Numbers::numbers_of))]
impl From<Component> for Numbers {
    ghost from_gives = { λ c n. n ≡ numbers_of c };

    fn from(component: Component) -> Numbers {
        match component {
            Component::Constant(v) => one(0, v),
            Component::Sphere(s) => four(1, s.centre.x, s.centre.y, s.centre.z, s.radius),
            Component::Torus(t) => Numbers {
                kind: 2,
                a: t.centre.x,
                b: t.centre.y,
                c: t.centre.z,
                d: t.r,
                e: t.t,
            },
            Component::Multiply => plain(3),
            Component::Add => plain(4),
            Component::Subtract => plain(5),
            Component::Divide => plain(6),
            Component::Lerp(factor) => one(7, factor),
            Component::VariableLerp => plain(8),
            Component::Remap {
                from_min,
                from_max,
                to_min,
                to_max,
            } => four(9, from_min, from_max, to_min, to_max),
            Component::BooleanUnion => plain(10),
            Component::BooleanIntersection => plain(11),
            Component::BooleanDifference => plain(12),
            Component::Offset(distance) => one(13, distance),
            Component::Thickness(t) => one(14, t),
        }
    }
}

// The bits of x, from which x is read back.
fn bits(x: f64) -> u64
    ensures { (result ≡ Ieee.to_bits binary64 x) × (Ieee.of_bits binary64 result ≡ x) }
{
    float::bits::bits_of(x)
}

// The words of a component, from which it is read back.
impl From<Component> for ComponentWords {
    ghost from_gives = { Worded };

    fn from(component: Component) -> ComponentWords {
        Numbers::from(component).map(bits)
    }
}
