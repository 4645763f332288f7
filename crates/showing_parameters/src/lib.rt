// The calls that show a parameter: the data under a name, and what a screen shows of a kind (docs/ABI.md).
#![tactic(auto)]

ghost use Rattle.std.specs.Prelude.{◌≡◌};
ghost use Rattle.component_layout.specs.Components.{component_read};
ghost use Rattle.opened.specs.Said.{Says};
ghost use Rattle.showing_parameters.specs.Parameters.{read, parameter_in, Reads, ShowsParameter, kind_of, of_kind, takes, of_parameter};

use component::model_component::Component;
use component::parameter::{Data, DataType};
use component_layout::component_numbers::ComponentWords;
use component_layout::component_words::component_from;
use float::bits::bits_of;
use held::reading::get_component;
use model::model_error::{ModelError, Refusal};
use naming::{parameter, type_name};
use opened::{opened, say_nothing, say_number, say_refusal, say_tagged};
use parameter_reading::read_parameter;
use rows::writing::write_three;
use tag::Tag;

// Answers the data under a name: 1 a value, 2 a vec3, 0 where there is none.
// Kept: these three numbers, which the C interface fixes.
fn say_data(r: Option<Data>, words: &mut [u8], out: &mut [u8]) -> u32
    ensures { ShowsParameter (read r) words.old words.new out.old out.new result }
{
    match r {
        Some(Data::Value(x)) => {
            write_three(words, 0, bits_of(x), 0, 0);
            say_number(out, Ok(1))
        }
        Some(Data::Vec3(v)) => {
            write_three(words, 0, bits_of(v.x), bits_of(v.y), bits_of(v.z));
            say_number(out, Ok(2))
        }
        Some(Data::Boolean(_)) | None => say_nothing(out),
    }
}

// The data under a name of the component with that tag, where it has any.
fn tagged_data(model: &[u8], tag: &[u8], name: &[u8]) -> Result<Option<Data>, Refusal>
    ensures { Reads (parameter_in model.now tag.now name.now) result }
{
    let m = opened(model)?;
    let tag = Tag::try_from(tag)?;
    let c = get_component(&m, tag).ok_or(Refusal::of(ModelError::MissingTag, tag))?;
    Ok(read_parameter(c, name))
}

// The parameter of a component.
pub fn dw_read_parameter(
    model: &[u8],
    tag: &[u8],
    name: &[u8],
    words: &mut [u8],
    out: &mut [u8],
) -> u32
    ensures { ShowsParameter (parameter_in model.now tag.now name.now) words.old words.new out.old out.new result }
{
    match tagged_data(model, tag, name) {
        Ok(data) => say_data(data, words, out),
        Err(refusal) => say_refusal(out, refusal),
    }
}

// The component of a kind, whose numbers are 0.
fn component_of_kind(kind: u64) -> Option<Component>
    ensures { component_read result ≡ kind_of kind }
{
    component_from(ComponentWords {
        kind,
        ..ComponentWords::default()
    })
}

// The name of a kind, and one more than its count of inputs; 0 where there is no such kind.
// Kept: here and in `dw_parameter` the kind is a number, as the C interface hands it over.
pub fn dw_type_name(kind: u64, out: &mut [u8]) -> u32
    ensures { Says (of_kind (kind_of kind)) out.old out.new result }
{
    let Some(c) = component_of_kind(kind) else {
        return say_nothing(out);
    };
    say_tagged(out, type_name(c), c.input_count() as u64 + 1)
}

// What a parameter takes, by number.
// Kept: these two numbers, which the C interface fixes.
fn type_number(d: DataType) -> u64
    ensures { result ≡ takes d }
{
    match d {
        DataType::Value => 1,
        DataType::Vec3 => 2,
    }
}

// The parameter of a kind at a place, and what it takes: 1 a value, 2 a vec3, 0 where there is none.
pub fn dw_parameter(kind: u64, index: u64, out: &mut [u8]) -> u32
    ensures { Says (of_parameter (kind_of kind) index) out.old out.new result }
{
    let Some(c) = component_of_kind(kind) else {
        return say_nothing(out);
    };
    let Some(p) = parameter(c, index as usize) else {
        return say_nothing(out);
    };
    say_tagged(out, p.name, type_number(p.data_type))
}
