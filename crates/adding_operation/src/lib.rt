// Adding an operation: `add_operation`; and a component with its list, which `add_component` ends with too.
#![tactic(auto)]

ghost use Rattle.std.specs.Prelude.{◌≡◌, ◌<◌, false, ℕ, Some};
ghost use Rattle.model.specs.Edit.{add_operation};
ghost use Rattle.edit.specs.Meets.{Meets};
ghost use Rattle.input_rows.specs.Inputs.{inputs_of};
ghost use Rattle.adding_operation.specs.Listed.{list_put, no_room, Listed};

use adding::add_more;
use component::model_component::Component;
use edit::Edited;
use held::find::{check_free, find_list};
use input_rows::{Inputs, inputs_fit, operation_row, too_long};
use model::implicit_model::{InputList, Model};
use model::model_error::{Answer, ModelError, Refusal};
use tag::Tag;

// Whether a new list is needed, and there is no room for one.
fn no_room(m: &Model, found: Option<usize>) -> bool
    ensures { result ≡ no_room m.now found }
{
    found.is_none() && m.lists.len() <= m.list_count
}

// The list over the one found, or one list more. Field by field: a row put whole would be C's `memmove`, which a host need not have.
fn put_list(m: &mut Model, list: InputList, found: Option<usize>)
    requires within { (i : ℕ) → found ≡ Some i → i < 128 }
    requires room { no_room m.old found ≡ false }
    ensures { m.new ≡ list_put m.old list found }
{
    match found {
        Some(row) => {
            m.lists[row] = InputList { ..list };
        }
        None => {
            m.lists[m.list_count] = InputList { ..list };
            m.list_count += 1;
        }
    }
}

// One component more with its list, and the default, where there is room. The tag is one that no component has; it may have a leftover list.
pub fn add_listed(m: &mut Model, tag: Tag, c: Component, list: InputList, default: Tag) -> Answer
    ensures { Listed m.old tag c list default (record { answer = result; model = m.new }) }
{
    if m.components.len() <= m.component_count {
        return Err(Refusal::plain(ModelError::ComponentsFull));
    }
    let found = find_list(m, tag);
    if no_room(m, found) {
        return Err(Refusal::plain(ModelError::ListsFull));
    }
    put_list(m, list, found);
    add_more(m, tag, c, default)
}

// Of the tags that are given the first three at most are looked at.
pub fn add_operation_to(m: &mut Model, tag: &[u8], c: Component, inputs: Option<Inputs>) -> Answer
    ensures { Meets (add_operation tag.now c (inputs_of inputs.entry)) m.old (record { answer = result; model = m.new }) }
{
    validity::check(m)?;
    let tag = Tag::try_from(tag)?;
    if too_long(inputs) {
        return Err(Refusal::plain(ModelError::TagTooLong));
    }
    if !c.is_operation() {
        return Err(Refusal::of(ModelError::ParameterDoesNotFit, tag));
    }
    check_free(m, tag)?;
    let k = c.input_count();
    if !inputs_fit(inputs, k) {
        return Err(Refusal::of(ModelError::IncorrectInputCount, tag));
    }
    add_listed(m, tag, c, operation_row(tag, inputs, k), tag)
}

pub fn add_operation(m: Model, tag: &[u8], c: Component, inputs: Option<Inputs>) -> Edited
    ensures { Meets (add_operation tag.now c (inputs_of inputs.entry)) m result }
{
    let mut model = m;
    let answer = add_operation_to(&mut model, tag, c, inputs);
    Edited { answer, model }
}
