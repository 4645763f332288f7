// Removing: `remove_component`.
#![tactic(auto)]

pub mod swapping;

ghost use Rattle.std.specs.Prelude.{◌≡◌};
ghost use Rattle.model.specs.Edit.{remove_component};
ghost use Rattle.edit.specs.Meets.{Meets};
ghost use Rattle.removing.specs.Removing.{HeldAt, without_entry};

use edit::Edited;
use held::find::held_component;
use model::implicit_model::Model;
use model::model_error::Answer;
use tag::Tag;

// The component at a position is taken off: the last one takes its place, so that its room is used again.
// Kept: crate list_moving does the same to a table of lists. One function for both would be public, and so ask nothing of its callers: it would test the position and the count that are known here, and leave the count to be written beside it, which is no plainer.
fn take_entry(m: &mut Model, i: usize)
    requires { HeldAt m.old i }
    ensures { m.new ≡ without_entry m.old i }
{
    let last = m.component_count - 1;
    m.components[i] = m.components[last];
    m.component_count = last;
}

// The tag's own list stays, as a leftover one.
pub fn remove_component_from(m: &mut Model, tag: &[u8]) -> Answer
    ensures { Meets (remove_component tag.now) m.old (record { answer = result; model = m.new }) }
{
    validity::check(m)?;
    let tag = Tag::try_from(tag)?;
    let i = held_component(m, tag)?;
    take_entry(m, i);
    swapping::swap_places(m, tag, None);
    Ok(None)
}

pub fn remove_component(m: Model, tag: &[u8]) -> Edited
    ensures { Meets (remove_component tag.now) m result }
{
    let mut model = m;
    let answer = remove_component_from(&mut model, tag);
    Edited { answer, model }
}
