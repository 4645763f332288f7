// A component, and what a parameter is set to, from a kind and words.
ghost use Rattle.std.specs.Prelude.{◌≡◌, ◌+◌};
ghost use Rattle.component_layout.specs.Places.{words_at};
ghost use Rattle.component_layout.specs.Components.{component_of, component_from, data_from, component_read, data_read};

use crate::component_numbers::{ComponentWords, Numbers};
use component::model_component::Component;
use component::parameter::Data;
use component::range::Range;
use float::bits::float_of;
use geometry::vec3f::Vec3;
use layout::words::{read_word, word_past};
use shapes::sphere::Sphere;
use shapes::torus::Torus;

// The six words of a component at a place of some bytes.
pub fn words_at(s: &[u8], at: usize) -> ComponentWords
    ensures { result ≡ words_at s.now at }
{
    ComponentWords {
        kind: read_word(s, at),
        a: word_past(s, at, 8),
        b: word_past(s, at, 16),
        c: word_past(s, at, 24),
        d: word_past(s, at, 32),
        e: word_past(s, at, 40),
    }
}

// The component of a kind with these numbers.
#[tactic(auto, unfolding(crate::specs::Components::component_of))]
pub fn component_of(n: Numbers) -> Option<Component>
    ensures { component_read result ≡ component_of n.kind n.a n.b n.c n.d n.e }
{
    let component = match n.kind {
        0 => Component::Constant(n.a),
        1 => Component::Sphere(Sphere::at_coord(n.a, n.b, n.c, n.d)),
        2 => Component::Torus(Torus::at_coord(n.a, n.b, n.c, n.d, n.e)),
        3 => Component::Multiply,
        4 => Component::Add,
        5 => Component::Subtract,
        6 => Component::Divide,
        7 => Component::Lerp(n.a),
        8 => Component::VariableLerp,
        9 => Component::remap(Range::new(n.a, n.b), Range::new(n.c, n.d)),
        10 => Component::BooleanUnion,
        11 => Component::BooleanIntersection,
        12 => Component::BooleanDifference,
        13 => Component::Offset(n.a),
        14 => Component::Thickness(n.a),
        _ => return None,
    };
    Some(component)
}

// The component of a kind whose numbers have these bits.
pub fn component_from(w: ComponentWords) -> Option<Component>
    ensures { component_read result ≡ component_from w.kind w.a w.b w.c w.d w.e }
{
    component_of(w.map(float_of))
}

// What a parameter is set to: a kind and three words, of which those that the kind does not use are not looked at.
// Kept: a number for the kind, and three words, since the C interface and the layout of bytes have them.
#[derive(Clone, Copy)]
pub struct DataWords {
    pub kind: u64,
    pub a: u64,
    pub b: u64,
    pub c: u64,
}

// What a parameter is set to, from its words.
#[tactic(auto, unfolding(crate::specs::Components::data_from))]
pub fn data_from(w: DataWords) -> Option<Data>
    ensures { data_read result ≡ data_from w }
{
    match (w.kind, w.a) {
        (0, _) => Some(Data::Value(float_of(w.a))),
        (1, _) => Some(Data::Vec3(Vec3::new(float_of(w.a), float_of(w.b), float_of(w.c)))),
        (2, 0) => Some(Data::Boolean(false)),
        (2, 1) => Some(Data::Boolean(true)),
        _ => None,
    }
}
