// What the words of a line spell, taken one after the other.
ghost use Rattle.std.specs.Prelude.{◌≡◌, ◌+◌, drop, OnSome, IfSome};
ghost use Rattle.spelling.specs.Words.{words_left};
ghost use Rattle.spelling.specs.Kinds.{numbers_of};

use crate::line_words::Words;
use crate::number;
use crate::text::{Text, text_of};
use component::model_component::Component;
use float::bits::float_of;
use geometry::vec3f::Vec3;
use shapes::sphere::Sphere;
use shapes::torus::Torus;

impl Words<'_> {
    // A tag or a name.
    pub fn text(&mut self) -> Option<Text>
        ensures { words_left self.new ≡ drop 1 (words_left self.old) }
    {
        text_of(self.next()?)
    }

    // A float by its bits.
    pub fn float(&mut self) -> Option<f64>
        ensures { words_left self.new ≡ drop 1 (words_left self.old) }
    {
        Some(float_of(number::bits(self.next()?)?))
    }

    // An index or a count.
    pub fn decimal(&mut self) -> Option<usize>
        ensures { words_left self.new ≡ drop 1 (words_left self.old) }
    {
        Some(number::decimal(self.next()?)? as usize)
    }

    pub fn vec3(&mut self) -> Option<Vec3>
        ensures { OnSome result (words_left self.new ≡ drop 3 (words_left self.old)) }
    {
        Some(Vec3 {
            x: self.float()?,
            y: self.float()?,
            z: self.float()?,
        })
    }

    // A component: the word of its kind, and its numbers.
    // Kept: the words stand here and in word_writing, since each is a pattern here, whose arm reads the numbers of its kind.
    pub fn component(&mut self) -> Option<Component>
        ensures { IfSome result (λ c. words_left self.new ≡ drop (1 + numbers_of c) (words_left self.old)) }
    {
        Some(match self.next()? {
            b"constant" => Component::Constant(self.float()?),
            b"sphere" => Component::Sphere(Sphere {
                centre: self.vec3()?,
                radius: self.float()?,
            }),
            b"torus" => Component::Torus(Torus {
                centre: self.vec3()?,
                r: self.float()?,
                t: self.float()?,
            }),
            b"Multiply" => Component::Multiply,
            b"Add" => Component::Add,
            b"Subtract" => Component::Subtract,
            b"Divide" => Component::Divide,
            b"Lerp" => Component::Lerp(self.float()?),
            b"VariableLerp" => Component::VariableLerp,
            b"Remap" => Component::Remap {
                from_min: self.float()?,
                from_max: self.float()?,
                to_min: self.float()?,
                to_max: self.float()?,
            },
            b"BooleanUnion" => Component::BooleanUnion,
            b"BooleanIntersection" => Component::BooleanIntersection,
            b"BooleanDifference" => Component::BooleanDifference,
            b"Offset" => Component::Offset(self.float()?),
            b"Thickness" => Component::Thickness(self.float()?),
            _ => return None,
        })
    }
}
