// One edit of a list, run.
#![tactic(auto)]

ghost use Rattle.edit.specs.Meets.{Meets};
ghost use Rattle.edit_rows.specs.Changes.{edit_of};
ghost use Rattle.row_running.specs.Steps.{Step};

use edit_rows::edit_row::Change;
use model::implicit_model::Model;
use model::model_error::Answer;

// The edit made.
fn make(model: &mut Model, change: Change) -> Answer
    ensures { Meets (edit_of change.entry) model.old (record { answer = result; model = model.new }) }
{
    match change {
        Change::AddOperation {
            tag,
            operation,
            inputs,
        } => lent::add_operation(model, tag, operation, inputs),
        Change::AddConstant { tag, value } => lent::add_constant(model, tag, value),
        Change::AddFunction { tag, function } => lent::add_function(model, tag, function),
        Change::AddComponent { tag, component } => lent::add_component(model, tag, component),
        Change::AddInput {
            target,
            source,
            index,
        } => lent::add_input(model, target, source, index),
        Change::RemoveInput { tag, index } => lent::remove_input(model, tag, index),
        Change::RemoveComponent { tag } => lent::remove_component(model, tag),
        Change::RenameComponent { old, new } => lent::rename_component(model, old, new),
        Change::SetParameter { tag, name, value } => lent::set_parameter(model, tag, name, value),
    }
}

// The edit made, and the target's newest tag after it.
pub fn run_change<'a>(model: &mut Model, change: Change<'a>, newest: &'a [u8]) -> &'a [u8]
    ensures { Step (edit_of change.entry) model.old newest.now model.new result.now }
{
    let answer = make(model, change);
    match change {
        Change::RenameComponent { old, new } => newest::after(answer, newest, old, new),
        _ => newest,
    }
}
