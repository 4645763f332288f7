// The edits on a model that is lent to be changed, by the names that document 01 gives them.
// Kept: nine thin functions, since document 01 names the form: thin wrappers that take `&mut Model`. Each edit is its crate's.
#![tactic(auto)]

ghost use Rattle.model.specs.Edit.{add_constant, add_function, add_operation, add_component, add_input, remove_input, remove_component, rename_component, set_parameter};
ghost use Rattle.input_rows.specs.Inputs.{inputs_of};
ghost use Rattle.edit.specs.Meets.{Meets};

use component::model_component::Component;
use component::parameter::Data;
use input_rows::Inputs;
use model::implicit_model::Model;
use model::model_error::Answer;

pub fn add_constant(m: &mut Model, tag: &[u8], value: f64) -> Answer
    ensures { Meets (add_constant tag.now value) m.old (record { answer = result; model = m.new }) }
{
    adding::add_constant_to(m, tag, value)
}

pub fn add_function(m: &mut Model, tag: &[u8], c: Component) -> Answer
    ensures { Meets (add_function tag.now c) m.old (record { answer = result; model = m.new }) }
{
    adding::add_function_to(m, tag, c)
}

// Of the tags that are given the first three at most are looked at.
pub fn add_operation(m: &mut Model, tag: &[u8], c: Component, inputs: Option<Inputs>) -> Answer
    ensures { Meets (add_operation tag.now c (inputs_of inputs.entry)) m.old (record { answer = result; model = m.new }) }
{
    adding_operation::add_operation_to(m, tag, c, inputs)
}

pub fn add_component(m: &mut Model, tag: &[u8], c: Component) -> Answer
    ensures { Meets (add_component tag.now c) m.old (record { answer = result; model = m.new }) }
{
    adding_component::add_component_to(m, tag, c)
}

pub fn add_input(m: &mut Model, target: &[u8], source: &[u8], index: usize) -> Answer
    ensures { Meets (add_input target.now source.now index) m.old (record { answer = result; model = m.new }) }
{
    wiring::add_input_to(m, target, source, index)
}

pub fn remove_input(m: &mut Model, tag: &[u8], index: usize) -> Answer
    ensures { Meets (remove_input tag.now index) m.old (record { answer = result; model = m.new }) }
{
    unwiring::remove_input_from(m, tag, index)
}

pub fn remove_component(m: &mut Model, tag: &[u8]) -> Answer
    ensures { Meets (remove_component tag.now) m.old (record { answer = result; model = m.new }) }
{
    removing::remove_component_from(m, tag)
}

pub fn rename_component(m: &mut Model, old: &[u8], new: &[u8]) -> Answer
    ensures { Meets (rename_component old.now new.now) m.old (record { answer = result; model = m.new }) }
{
    renaming::rename_component_in(m, old, new)
}

pub fn set_parameter(m: &mut Model, tag: &[u8], name: &[u8], data: Data) -> Answer
    ensures { Meets (set_parameter tag.now name.now «data») m.old (record { answer = result; model = m.new }) }
{
    setting::set_parameter_in(m, tag, name, data)
}
