// What a screen shows of a component: the name of its kind, and its parameters.
#![tactic(auto)]

ghost use Rattle.std.specs.Prelude.{◌≡◌, map, length};
ghost use Rattle.tag.specs.View.{Labelled};
ghost use Rattle.naming.specs.Names.{type_name, parameters, entry, parameter_at, DescribedAt};

use component::model_component::Component;
use component::parameter::{DataType, Parameter};
use tag::{Tag, tag_of};

// The name of the component's kind.
#[tactic(auto, unfolding(crate::specs::Names::type_name))]
pub fn type_name(c: Component) -> Tag
    ensures { Labelled (type_name c) result }
{
    let name: &[u8] = match c {
        Component::Constant(_) => b"Constant",
        Component::Sphere(_) => b"Sphere",
        Component::Torus(_) => b"Torus",
        Component::Multiply => b"Multiply",
        Component::Add => b"Add",
        Component::Subtract => b"Subtract",
        Component::Divide => b"Divide",
        Component::Lerp(_) => b"Lerp",
        Component::VariableLerp => b"VariableLerp",
        Component::Remap { .. } => b"Remap",
        Component::BooleanUnion => b"BooleanUnion",
        Component::BooleanIntersection => b"BooleanIntersection",
        Component::BooleanDifference => b"BooleanDifference",
        Component::Offset(_) => b"Offset",
        Component::Thickness(_) => b"Thickness",
    };
    tag_of(name)
}

// The name of each parameter of the component, and what it takes.
#[tactic(auto, unfolding(component::specs::Parameter::name_value, component::specs::Parameter::name_centre, component::specs::Parameter::name_radius, component::specs::Parameter::name_thickness, component::specs::Parameter::name_factor, component::specs::Parameter::name_from_min, component::specs::Parameter::name_from_max, component::specs::Parameter::name_to_min, component::specs::Parameter::name_to_max, component::specs::Parameter::name_distance))]
fn parameters(c: Component) -> &'static [(&'static [u8], DataType)]
    ensures { map entry result.now ≡ parameters c }
{
    match c {
        Component::Constant(_) => &[(b"Value", DataType::Value)],
        Component::Sphere(_) => &[(b"Centre", DataType::Vec3), (b"Radius", DataType::Value)],
        Component::Torus(_) => &[
            (b"Centre", DataType::Vec3),
            (b"Radius", DataType::Value),
            (b"Thickness", DataType::Value),
        ],
        Component::Lerp(_) => &[(b"Factor", DataType::Value)],
        Component::Remap { .. } => &[
            (b"FromMin", DataType::Value),
            (b"FromMax", DataType::Value),
            (b"ToMin", DataType::Value),
            (b"ToMax", DataType::Value),
        ],
        Component::Offset(_) => &[(b"Distance", DataType::Value)],
        Component::Thickness(_) => &[(b"Thickness", DataType::Value)],
        Component::Multiply
        | Component::Add
        | Component::Subtract
        | Component::Divide
        | Component::VariableLerp
        | Component::BooleanUnion
        | Component::BooleanIntersection
        | Component::BooleanDifference => &[],
    }
}

// How many parameters the component has.
pub fn parameter_count(c: Component) -> usize
    ensures { result ≡ length (parameters c) }
{
    parameters(c).len()
}

// The component's parameter at place i.
pub fn parameter(c: Component, i: usize) -> Option<Parameter>
    ensures { DescribedAt (parameter_at c i) result }
{
    let &(name, data_type) = parameters(c).get(i)?;
    Some(Parameter {
        name: tag_of(name),
        data_type,
    })
}
