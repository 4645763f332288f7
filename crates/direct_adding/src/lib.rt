// `add_constant` and `add_function`, made in the bytes of a model; and one component more, which every adding there ends with. None changes nothing, and says nothing of the edit.
// Kept: crate adding does the same in a record. A function over both stores would take a trait of a store, with laws for each.
#![tactic(auto)]

pub mod put;

ghost use Rattle.model.specs.Edit.{add_constant, add_function};
ghost use Rattle.direct_rows.specs.Took.{Makes};
ghost use Rattle.direct_adding.specs.Plain.{Grew, Plainly};

use crate::put::put_more;
use component::model_component::Component;
use finding::Table;
use layout::model::MODEL_SIZE;
use standing::stands;
use tag::Tag;

// One component more, and the default d, where there is room. The tag is one that no component has.
// Kept: a tag and a component apart, as `add_more` of the record takes them; of an entry the clause would name both fields, `Grew entry.tag entry.component d`.
pub fn add_more_in(s: &mut [u8], t: Tag, c: Component, d: Tag) -> Option<Tag>
    ensures { Grew t c d s.old s.new result }
{
    let n = Table::Components.count(s);
    if s.len() != MODEL_SIZE || 64 <= n {
        return None;
    }
    put_more(s, n, t, c, d);
    Some(t)
}

// A component that takes no inputs, of the kind that is asked for.
fn add_plain_in(s: &mut [u8], tag: &[u8], c: Component) -> Option<Tag>
    ensures { Plainly tag.now c s.old s.new result }
{
    let t = Tag::try_from(tag).ok()?;
    if !stands(s) || Table::Components.row_of(s, tag).is_some() {
        return None;
    }
    add_more_in(s, t, c, t)
}

pub fn add_constant_in(s: &mut [u8], tag: &[u8], value: f64) -> Option<Tag>
    ensures { Makes (add_constant tag.now value) s.old s.new result }
{
    add_plain_in(s, tag, Component::Constant(value))
}

// A sphere or a torus.
pub fn add_function_in(s: &mut [u8], tag: &[u8], c: Component) -> Option<Tag>
    ensures { Makes (add_function tag.now c) s.old s.new result }
{
    if !c.is_function() {
        return None;
    }
    add_plain_in(s, tag, c)
}
