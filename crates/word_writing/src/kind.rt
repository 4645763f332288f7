// Numbers, points and components as words.
ghost use Rattle.std.specs.Prelude.{◌≡◌, Some};
ghost use Rattle.word_writing.specs.Kinds.{float_word, vec3_words, kind_word, component_words};

use crate::BitsWord;
use component::model_component::Component;
use float::bits::bits_of;
use geometry::vec3f::Vec3;
use shapes::sphere::Sphere;
use shapes::torus::Torus;
use std::fmt;

// A number, by its bits.
#[derive(Clone, Copy)]
pub struct FloatWord(pub f64);

impl fmt::Display for FloatWord {
    ghost output = { λ w. Some (float_word w.0) };

    fn fmt<W: fmt::Write>(&self, f: &mut fmt::Formatter<W>) -> fmt::Result {
        BitsWord(bits_of(self.0)).fmt(f)
    }
}

// The three coordinates.
#[derive(Clone, Copy)]
pub struct Vec3Words(pub Vec3);

impl fmt::Display for Vec3Words {
    ghost output = { λ w. Some (vec3_words w.0) };

    fn fmt<W: fmt::Write>(&self, f: &mut fmt::Formatter<W>) -> fmt::Result {
        let Vec3 { x, y, z } = self.0;
        write!(f, "{} {} {}", FloatWord(x), FloatWord(y), FloatWord(z))
    }
}

// The word of a component's kind.
// Kept: not naming's `type_name`, whose names are a screen's, as tags: three of the words differ, and would be a `match` again.
fn kind_word(component: Component) -> &'static str
    ensures { result.now ≡ kind_word component }
{
    match component {
        Component::Constant(_) => "constant",
        Component::Sphere(_) => "sphere",
        Component::Torus(_) => "torus",
        Component::Multiply => "Multiply",
        Component::Add => "Add",
        Component::Subtract => "Subtract",
        Component::Divide => "Divide",
        Component::Lerp(_) => "Lerp",
        Component::VariableLerp => "VariableLerp",
        Component::Remap { .. } => "Remap",
        Component::BooleanUnion => "BooleanUnion",
        Component::BooleanIntersection => "BooleanIntersection",
        Component::BooleanDifference => "BooleanDifference",
        Component::Offset(_) => "Offset",
        Component::Thickness(_) => "Thickness",
    }
}

// A component: the word of its kind, and its numbers.
#[derive(Clone, Copy)]
pub struct ComponentWords(pub Component);

impl fmt::Display for ComponentWords {
    ghost output = { λ w. Some (component_words w.0) };

    fn fmt<W: fmt::Write>(&self, f: &mut fmt::Formatter<W>) -> fmt::Result {
        f.write_str(kind_word(self.0))?;
        match self.0 {
            Component::Constant(x)
            | Component::Lerp(x)
            | Component::Offset(x)
            | Component::Thickness(x) => write!(f, " {}", FloatWord(x)),
            Component::Sphere(Sphere { centre, radius }) => {
                write!(f, " {} {}", Vec3Words(centre), FloatWord(radius))
            }
            Component::Torus(Torus { centre, r, t }) => {
                write!(
                    f,
                    " {} {} {}",
                    Vec3Words(centre),
                    FloatWord(r),
                    FloatWord(t)
                )
            }
            Component::Remap {
                from_min,
                from_max,
                to_min,
                to_max,
            } => write!(
                f,
                " {} {} {} {}",
                FloatWord(from_min),
                FloatWord(from_max),
                FloatWord(to_min),
                FloatWord(to_max)
            ),
            _ => Ok(()),
        }
    }
}
