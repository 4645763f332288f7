// `add_operation`, made in the bytes of a model; and a component with its list, which `add_component` ends with there too. None changes nothing, and says nothing of the edit.
#![tactic(auto)]

mod put;

ghost use Rattle.model.specs.Edit.{add_operation};
ghost use Rattle.input_rows.specs.Inputs.{inputs_of};
ghost use Rattle.direct_rows.specs.Took.{Makes};
ghost use Rattle.direct_operation.specs.Listed.{Listed};

use crate::put::{put_operation, row_for};
use component::model_component::Component;
use finding::Table;
use input_rows::{Inputs, inputs_fit, operation_row, too_long};
use layout::model::MODEL_SIZE;
use model::implicit_model::InputList;
use standing::stands;
use tag::Tag;

// One component more under the tag of its list l, and the default d, where there is room. The tag is one that no component has; it may have a leftover list.
pub fn add_listed_in(s: &mut [u8], c: Component, l: InputList, d: Tag) -> Option<Tag>
    ensures { Listed c l d s.old s.new result }
{
    let n = Table::Components.count(s);
    if s.len() != MODEL_SIZE || 3 < l.count || 64 <= n {
        return None;
    }
    let t = l.tag;
    let j = row_for(s, t)?;
    put_operation(s, n, j, c, l, d);
    Some(t)
}

// Of the tags that are given the first three at most are looked at.
pub fn add_operation_in(
    s: &mut [u8],
    tag: &[u8],
    c: Component,
    inputs: Option<Inputs>,
) -> Option<Tag>
    ensures { Makes (add_operation tag.now c (inputs_of inputs.entry)) s.old s.new result }
{
    let t = Tag::try_from(tag).ok()?;
    let k = c.input_count();
    if too_long(inputs)
        || !c.is_operation()
        || !inputs_fit(inputs, k)
        || !stands(s)
        || Table::Components.row_of(s, tag).is_some()
    {
        return None;
    }
    add_listed_in(s, c, operation_row(t, inputs, k), t)
}
