// The four edits that add a component.
ghost use Rattle.model.specs.Edit.{add_operation, add_constant, add_function};
ghost use Rattle.component_layout.specs.Components.{number};
ghost use Rattle.input_rows.specs.Inputs.{inputs_of};
ghost use Rattle.word_edits.specs.Edits.{function_of, component_edit, operation_of};
ghost use Rattle.storing.specs.Called.{Called};

use crate::edited::edit_in;
use component_layout::component_numbers::ComponentWords;
use float::bits::float_of;
use input_rows::Inputs;
use opened::read_model;
use storing::store::{store, tell};
use word_edits::{add_component_of, function_of, operation_of};

pub fn add_constant(model: &mut [u8], tag: &[u8], value: u64, out: &mut [u8]) -> u32
    ensures { Called (add_constant tag.now (number value)) model.old model.new out.old out.new result }
{
    let x = float_of(value);
    edit_in(model, out, |m| adding::add_constant(m, tag, x))
}

pub fn add_function(model: &mut [u8], tag: &[u8], words: ComponentWords, out: &mut [u8]) -> u32
    ensures { Called (add_function tag.now (function_of words)) model.old model.new out.old out.new result }
{
    let f = function_of(words);
    edit_in(model, out, |m| adding::add_function(m, tag, f))
}

pub fn add_operation(
    model: &mut [u8],
    tag: &[u8],
    words: ComponentWords,
    inputs: Option<Inputs>,
    out: &mut [u8],
) -> u32
    ensures { Called (add_operation tag.now (operation_of words) (inputs_of inputs.entry)) model.old model.new out.old out.new result }
{
    // Kept: tried through `edit_in`; the inputs are a struct with a lifetime, nothing is known of a call of a closure that captures one, and the goal `returns` stays open.
    match read_model(model) {
        Ok(m) => {
            let edited = adding_operation::add_operation(m, tag, operation_of(words), inputs);
            store(edited, model, out)
        }
        Err(refusal) => tell(Err(refusal), out),
    }
}

pub fn add_component(model: &mut [u8], tag: &[u8], words: ComponentWords, out: &mut [u8]) -> u32
    ensures { Called (component_edit tag.now words) model.old model.new out.old out.new result }
{
    edit_in(model, out, |m| add_component_of(m, tag, words))
}
