// A parameter set.
#![tactic(auto, unfolding(component::specs::Parameter::set_value, component::specs::Parameter::set_vec3, component::specs::Parameter::set_parameter, component::specs::Parameter::name_centre, component::specs::Parameter::name_radius, component::specs::Parameter::name_thickness, component::specs::Parameter::name_factor, component::specs::Parameter::name_from_min, component::specs::Parameter::name_from_max, component::specs::Parameter::name_to_min, component::specs::Parameter::name_to_max, component::specs::Parameter::name_distance))]

ghost use Rattle.std.specs.Prelude.{◌≡◌, cond, Some, None};
ghost use Rattle.tag.specs.Tags.{is};
ghost use Rattle.component.specs.Parameter.{set_value, set_vec3, set_parameter};

use component::model_component::Component;
use component::parameter::{self, Data, ParameterError, under};
use component::range::Range;
use geometry::vec3f::Vec3;
use shapes::sphere::Sphere;
use shapes::torus::Torus;

// The change, where the name is the one wanted.
// Kept: (here and below) no `match` with the names as patterns, for the reason in crate parameter_reading.
fn set_named(name: &[u8], wanted: &[u8], changed: Component) -> Result<Component, ParameterError>
    ensures { result ≡ cond (is name.now wanted.now) (Ok changed) (Err ParameterError.DoesNotFit) }
{
    under(name, wanted, changed).ok_or(ParameterError::DoesNotFit)
}

fn set_torus(torus: Torus, name: &[u8], v: f64) -> Result<Component, ParameterError>
    ensures { result ≡ set_value (Component.Torus torus) name.now v }
{
    under(name, b"Radius", Component::Torus(Torus { r: v, ..torus }))
        .or(under(
            name,
            b"Thickness",
            Component::Torus(Torus { t: v, ..torus }),
        ))
        .ok_or(ParameterError::DoesNotFit)
}

// The range with one end set, where the name is that end's.
fn with_end(range: Range, name: &[u8], min: &[u8], max: &[u8], v: f64) -> Option<Range>
    ensures { result ≡ cond (is name.now min.now) (Some (record { min = v; max = range.max })) (cond (is name.now max.now) (Some (record { min = range.min; max = v })) None) }
{
    under(name, min, Range::new(v, range.max)).or(under(name, max, Range::new(range.min, v)))
}

fn set_remap(from: Range, to: Range, name: &[u8], v: f64) -> Result<Component, ParameterError>
    ensures { result ≡ set_value (Component.Remap from.min from.max to.min to.max) name.now v }
{
    if let Some(changed) = with_end(from, name, b"FromMin", b"FromMax", v) {
        return Ok(Component::remap(changed.with_ends_apart()?, to));
    }
    let changed = with_end(to, name, b"ToMin", b"ToMax", v).ok_or(ParameterError::DoesNotFit)?;
    Ok(Component::remap(from, changed.with_ends_apart()?))
}

// A Value under a name. A constant takes any name.
fn set_value(c: Component, name: &[u8], v: f64) -> Result<Component, ParameterError>
    ensures { result ≡ set_value c name.now v }
{
    match c {
        Component::Constant(_) => Ok(Component::Constant(v)),
        Component::Sphere(s) => set_named(
            name,
            b"Radius",
            Component::Sphere(Sphere { radius: v, ..s }),
        ),
        Component::Torus(t) => set_torus(t, name, v),
        Component::Lerp(_) => set_named(name, b"Factor", Component::Lerp(parameter::clamped(v))),
        Component::Remap {
            from_min,
            from_max,
            to_min,
            to_max,
        } => set_remap(
            Range::new(from_min, from_max),
            Range::new(to_min, to_max),
            name,
            v,
        ),
        Component::Offset(_) => set_named(name, b"Distance", Component::Offset(v)),
        Component::Thickness(_) => set_named(name, b"Thickness", Component::Thickness(v)),
        Component::Multiply
        | Component::Add
        | Component::Subtract
        | Component::Divide
        | Component::VariableLerp
        | Component::BooleanUnion
        | Component::BooleanIntersection
        | Component::BooleanDifference => Err(ParameterError::DoesNotFit),
    }
}

// A Vec3 under a name: only a centre takes one.
fn set_vec3(c: Component, name: &[u8], v: Vec3) -> Result<Component, ParameterError>
    ensures { result ≡ set_vec3 c name.now v }
{
    match c {
        Component::Sphere(s) => set_named(
            name,
            b"Centre",
            Component::Sphere(Sphere { centre: v, ..s }),
        ),
        Component::Torus(t) => set_named(
            name,
            b"Centre",
            Component::Torus(Torus { centre: v, ..t }),
        ),
        _ => Err(ParameterError::DoesNotFit),
    }
}

// The component with the parameter of that name set, or why it stays.
pub fn set_parameter(c: Component, name: &[u8], data: Data) -> Result<Component, ParameterError>
    ensures { result ≡ set_parameter c name.now «data» }
{
    match data {
        Data::Value(v) => set_value(c, name, v),
        Data::Vec3(v) => set_vec3(c, name, v),
        Data::Boolean(_) => Err(ParameterError::DoesNotFit),
    }
}
