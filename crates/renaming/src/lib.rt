// Renaming: `rename_component`.
#![tactic(auto)]

ghost use Rattle.std.specs.Prelude.{◌<◌};
ghost use Rattle.model.specs.Edit.{rename_component};
ghost use Rattle.edit.specs.Meets.{Meets};
ghost use Rattle.renaming.specs.Moving.{TagMoved};

use edit::Edited;
use held::find::{check_free, held_component};
use list_moving::move_list;
use model::implicit_model::{ComponentEntry, Model};
use model::model_error::Answer;
use removing::swapping::swap_places;
use tag::Tag;

// What renaming changes: the component at a position and its list are under the new tag, and each place that named the old one names the new.
// Kept: tried as `m.components[i].tag = u`, and the goal `returns` stays open: the row would be read behind `move_list`, which promises the components only of a model that passes.
fn move_tag(m: &mut Model, i: usize, t: Tag, u: Tag)
    requires { i < 64 }
    ensures { TagMoved m.old i t u m.new }
{
    let entry = ComponentEntry {
        tag: u,
        ..m.components[i]
    };
    move_list(m, t, u);
    m.components[i] = entry;
    swap_places(m, t, Some(u));
}

pub fn rename_component_in(m: &mut Model, old: &[u8], new: &[u8]) -> Answer
    ensures { Meets (rename_component old.now new.now) m.old (record { answer = result; model = m.new }) }
{
    validity::check(m)?;
    let old = Tag::try_from(old)?;
    let new = Tag::try_from(new)?;
    check_free(m, new)?;
    let i = held_component(m, old)?;
    move_tag(m, i, old, new);
    Ok(Some(new))
}

pub fn rename_component(m: Model, old: &[u8], new: &[u8]) -> Edited
    ensures { Meets (rename_component old.now new.now) m result }
{
    let mut model = m;
    let answer = rename_component_in(&mut model, old, new);
    Edited { answer, model }
}
