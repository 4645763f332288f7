// `add_component`, made in the bytes of a model. None changes nothing, and says nothing of the edit.
#![tactic(auto)]

mod free;

ghost use Rattle.model.specs.Edit.{add_component};
ghost use Rattle.direct_rows.specs.Took.{Makes};

use crate::free::free_tag_in;
use component::model_component::Component;
use direct_adding::add_more_in;
use direct_operation::add_listed_in;
use standing::stands;
use tag::Tag;

// The default becomes the tag asked for, also where a numbered one is made.
pub fn add_component_in(s: &mut [u8], tag: &[u8], c: Component) -> Option<Tag>
    ensures { Makes (add_component tag.now c) s.old s.new result }
{
    let t = Tag::try_from(tag).ok()?;
    if !stands(s) {
        return None;
    }
    let u = free_tag_in(s, t)?;
    if !c.is_operation() {
        return add_more_in(s, u, c, t);
    }
    let row = input_rows::unassigned_row(u, c.input_count());
    add_listed_in(s, c, row, t)
}
