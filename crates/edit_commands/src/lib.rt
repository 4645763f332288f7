// The nine edits: a command with its arguments, made on a model.
#![tactic(auto)]

use component::model_component::Component;
use input_rows::Inputs;
use model::implicit_model::Model;
use model::model_error::Answer;
use protocol::command::Change;

fn add_operation(
    model: &mut Model,
    tag: &[u8],
    operation: Component,
    inputs: &Option<protocol::arguments::Inputs>,
) -> Answer {
    let inputs = inputs.as_ref().map(|given| Inputs {
        count: given.count,
        first: given.tags[0].as_slice(),
        second: given.tags[1].as_slice(),
        third: given.tags[2].as_slice(),
    });
    lent::add_operation(model, tag, operation, inputs)
}

// The edit made on the model, and its answer.
pub fn edited(model: &mut Model, change: &Change) -> Answer {
    match change {
        Change::AddConstant { tag, value } => lent::add_constant(model, tag.as_slice(), *value),
        Change::AddFunction { tag, function } => {
            lent::add_function(model, tag.as_slice(), *function)
        }
        Change::AddOperation {
            tag,
            operation,
            inputs,
        } => { add_operation(model, tag.as_slice(), *operation, inputs) }
        Change::AddComponent { tag, component } => {
            lent::add_component(model, tag.as_slice(), *component)
        }
        Change::AddInput {
            target,
            source,
            index,
        } => { lent::add_input(model, target.as_slice(), source.as_slice(), *index) }
        Change::RemoveInput { tag, index } => lent::remove_input(model, tag.as_slice(), *index),
        Change::RemoveComponent { tag } => lent::remove_component(model, tag.as_slice()),
        Change::RenameComponent { old, new } => {
            lent::rename_component(model, old.as_slice(), new.as_slice())
        }
        Change::SetParameter { tag, name, value } => {
            lent::set_parameter(model, tag.as_slice(), name.as_slice(), *value)
        }
    }
}
