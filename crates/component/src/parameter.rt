// Parameters: what one is set to, and the rules on its number.
ghost use Rattle.std.specs.Prelude.{◌≡◌, cond, Some, None};
ghost use Rattle.tag.specs.Tags.{is};
ghost use Rattle.component.specs.Parameter.{clamped, too_near};

use geometry::vec3f::Vec3;
use tag::Tag;

#[derive(Clone, Copy)]
pub enum Data {
    Value(f64),
    Vec3(Vec3),
    Boolean(bool),
}

// What a parameter takes.
#[derive(Clone, Copy, Debug, PartialEq, Eq)]
pub enum DataType {
    Value,
    Vec3,
}

#[derive(Clone, Copy)]
pub struct Parameter {
    pub name: Tag,
    pub data_type: DataType,
}

// Why a parameter is not set: the component has none of that name and type, or the number lies too near its partner.
#[derive(Clone, Copy, Debug, PartialEq, Eq)]
pub enum ParameterError {
    DoesNotFit,
    TooNear,
}

// The value, where the name is the one wanted.
#[tactic(auto, using(tag::specs::Comparing::pointwise_is))]
pub fn under<T: Drop>(name: &[u8], wanted: &[u8], value: T) -> Option<T>
    ensures { result ≡ cond (is name.now wanted.now) (Some value) None }
{
    (name == wanted).then_some(value)
}

// A factor within 0 and 1. NaN and -0 pass.
pub fn clamped(factor: f64) -> f64
    ensures { result ≡ clamped factor }
{
    factor.clamp(0.0, 1.0)
}

// Whether a and b differ by less than 2 ^ -52 in size.
pub fn too_near(a: f64, b: f64) -> bool
    ensures { result ≡ too_near a b }
{
    (a - b).abs() < f64::EPSILON
}
