// A parameter read.
#![tactic(auto, using(crate::proofs::Named::or_under), unfolding(component::specs::Parameter::read_parameter, component::specs::Parameter::name_value, component::specs::Parameter::name_centre, component::specs::Parameter::name_radius, component::specs::Parameter::name_thickness, component::specs::Parameter::name_factor, component::specs::Parameter::name_from_min, component::specs::Parameter::name_from_max, component::specs::Parameter::name_to_min, component::specs::Parameter::name_to_max, component::specs::Parameter::name_distance))]

ghost use Rattle.std.specs.Prelude.{◌≡◌};
ghost use Rattle.component.specs.Parameter.{read_parameter};

use component::model_component::Component;
use component::parameter::{Data, under};

// The data under a name. A constant's number is under `Value`.
// Kept: no `match (c, name)` with the names as patterns. Tried: each byte of each name is then a branch, and the goals of those where it differs, more than 50 that are named `returns-in_default` with a number, stay open.
pub fn read_parameter(c: Component, name: &[u8]) -> Option<Data>
    ensures { result ≡ read_parameter c name.now }
{
    match c {
        Component::Constant(v) => under(name, b"Value", Data::Value(v)),
        Component::Sphere(s) => {
            let radius = under(name, b"Radius", Data::Value(s.radius));
            under(name, b"Centre", Data::Vec3(s.centre)).or(radius)
        }
        Component::Torus(s) => under(name, b"Centre", Data::Vec3(s.centre))
            .or(under(name, b"Radius", Data::Value(s.r)))
            .or(under(name, b"Thickness", Data::Value(s.t))),
        Component::Lerp(factor) => under(name, b"Factor", Data::Value(factor)),
        Component::Remap {
            from_min,
            from_max,
            to_min,
            to_max,
        } => under(name, b"FromMin", Data::Value(from_min))
            .or(under(name, b"FromMax", Data::Value(from_max)))
            .or(under(name, b"ToMin", Data::Value(to_min)))
            .or(under(name, b"ToMax", Data::Value(to_max))),
        Component::Offset(distance) => under(name, b"Distance", Data::Value(distance)),
        Component::Thickness(t) => under(name, b"Thickness", Data::Value(t)),
        Component::Multiply
        | Component::Add
        | Component::Subtract
        | Component::Divide
        | Component::VariableLerp
        | Component::BooleanUnion
        | Component::BooleanIntersection
        | Component::BooleanDifference => None,
    }
}
