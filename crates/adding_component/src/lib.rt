// Adding a component of any kind: `add_component`.
#![tactic(auto)]

ghost use Rattle.std.specs.Prelude.{◌≡◌};
ghost use Rattle.tag.specs.View.{bytes_of};
ghost use Rattle.model.specs.Edit.{add_component};
ghost use Rattle.model.specs.View.{components_of};
ghost use Rattle.edit.specs.Meets.{Meets};
ghost use Rattle.adding_component.specs.Free.{Nameable, FreeTag};

use adding::add_more;
use adding_operation::add_listed;
use component::model_component::Component;
use edit::Edited;
use held::find::find_component;
use input_rows::unassigned_row;
use model::implicit_model::Model;
use model::model_error::{Answer, ModelError, Refusal};
use tag::Tag;

// The tag if it is free, else tag_1, tag_2 and on, first free; none where that one is too long.
fn free_tag(m: &Model, tag: Tag) -> Option<Tag>
    requires { Nameable m.now tag }
    ensures { FreeTag (components_of m.now) (bytes_of tag) result }
{
    if find_component(m, tag).is_none() {
        return Some(tag);
    }
    for k in 1..m.live_components().len() + 2 {
        let numbered = tag.numbered(k)?;
        if find_component(m, numbered).is_none() {
            return Some(numbered);
        }
    }
    None
}

// The default becomes the tag asked for, also where a numbered one is made.
pub fn add_component_to(m: &mut Model, tag: &[u8], c: Component) -> Answer
    ensures { Meets (add_component tag.now c) m.old (record { answer = result; model = m.new }) }
{
    validity::check(m)?;
    let asked = Tag::try_from(tag)?;
    let tag = free_tag(m, asked).ok_or(Refusal::of(ModelError::NumberedTagTooLong, asked))?;
    if !c.is_operation() {
        return add_more(m, tag, c, asked);
    }
    add_listed(m, tag, c, unassigned_row(tag, c.input_count()), asked)
}

pub fn add_component(m: Model, tag: &[u8], c: Component) -> Edited
    ensures { Meets (add_component tag.now c) m result }
{
    let mut model = m;
    let answer = add_component_to(&mut model, tag, c);
    Edited { answer, model }
}
