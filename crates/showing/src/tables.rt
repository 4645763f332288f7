// What a model holds: its default, its components and its input lists, by position and by tag.
ghost use Rattle.model.specs.Model.{Place as Held};
ghost use Rattle.model.specs.View.{place_of};
ghost use Rattle.std.specs.Prelude.{List};
ghost use Rattle.component.specs.declared.model_component.Component.{Component};
ghost use Rattle.held.specs.Reading.{entry_read, list_read};
ghost use Rattle.opened.specs.Said.{held_in, Says};
ghost use Rattle.showing.specs.Tables.{default_of, of_default, component_at, component_under, list_place_at, list_under, Finding, Finds, ShowsComponent, ShowsList};

use held::reading::{component_at, get_component, get_default_output, get_inputs, list_at};
use model::implicit_model::{ComponentEntry, InputList, Place};
use model::model_error::Refusal;
use opened::{opened, say_nothing, say_refusal, say_tagged};
use rows::writing::{write_component, write_places};
use tag::Tag;

// Says the default, or that there is none.
// Kept: this and the next two each match, and say the same of a None. `map_or_else` would need two closures that both write `out`.
#[tactic(auto, unfolding(model::specs::View::place_of))]
fn say_default(default: Place, out: &mut [u8]) -> u32
    ensures { Says (default_of (place_of default)) out.old out.new result }
{
    match default {
        Some(t) => say_tagged(out, t, 1),
        None => say_nothing(out),
    }
}

// Shows a component with its tag, or says that there is none, or the refusal.
#[tactic(auto, unfolding(held::specs::Reading::entry_read))]
fn show_component(
    found: Result<Option<ComponentEntry>, Refusal>,
    words: &mut [u8],
    out: &mut [u8],
) -> u32
    ensures { (f : Finding Component) → Finds entry_read f found → ShowsComponent f words.old words.new out.old out.new result }
{
    match found {
        Ok(Some(e)) => {
            write_component(words, 0, e.component);
            say_tagged(out, e.tag, 1)
        }
        Ok(None) => say_nothing(out),
        Err(refusal) => say_refusal(out, refusal),
    }
}

// Shows an input list with its tag, or says that there is none, or the refusal.
#[tactic(auto, unfolding(held::specs::Reading::list_read))]
fn show_list(found: Result<Option<InputList>, Refusal>, places: &mut [u8], out: &mut [u8]) -> u32
    ensures { (f : Finding (List Held)) → Finds list_read f found → ShowsList f places.old places.new out.old out.new result }
{
    match found {
        Ok(Some(l)) => {
            write_places(places, 0, l);
            say_tagged(out, l.tag, l.live_places().len() as u64 + 1)
        }
        Ok(None) => say_nothing(out),
        Err(refusal) => say_refusal(out, refusal),
    }
}

// The default.
pub fn dw_default(model: &[u8], out: &mut [u8]) -> u32
    ensures { Says (of_default (held_in model.now)) out.old out.new result }
{
    match opened(model) {
        Ok(m) => say_default(get_default_output(&m), out),
        Err(refusal) => say_refusal(out, refusal),
    }
}

// The component at a position, where there is one.
fn placed_component(model: &[u8], position: u64) -> Result<Option<ComponentEntry>, Refusal>
    ensures { Finds entry_read (component_at model.now position) result }
{
    let m = opened(model)?;
    Ok(component_at(&m, position as usize))
}

// The component at a position of the table.
pub fn dw_component_at(model: &[u8], position: u64, words: &mut [u8], out: &mut [u8]) -> u32
    ensures { ShowsComponent (component_at model.now position) words.old words.new out.old out.new result }
{
    show_component(placed_component(model, position), words, out)
}

// The component with that tag, where there is one.
fn tagged_component(model: &[u8], tag: &[u8]) -> Result<Option<ComponentEntry>, Refusal>
    ensures { Finds entry_read (component_under model.now tag.now) result }
{
    let m = opened(model)?;
    let tag = Tag::try_from(tag)?;
    Ok(get_component(&m, tag).map(|component| ComponentEntry { tag, component }))
}

// The component with that tag.
pub fn dw_get_component(model: &[u8], tag: &[u8], words: &mut [u8], out: &mut [u8]) -> u32
    ensures { ShowsComponent (component_under model.now tag.now) words.old words.new out.old out.new result }
{
    show_component(tagged_component(model, tag), words, out)
}

// The input list at a position, where there is one.
fn placed_list(model: &[u8], position: u64) -> Result<Option<InputList>, Refusal>
    ensures { Finds list_read (list_place_at model.now position) result }
{
    let m = opened(model)?;
    Ok(list_at(&m, position as usize))
}

// The input list at a position of the table.
pub fn dw_list_at(model: &[u8], position: u64, places: &mut [u8], out: &mut [u8]) -> u32
    ensures { ShowsList (list_place_at model.now position) places.old places.new out.old out.new result }
{
    show_list(placed_list(model, position), places, out)
}

// That tag's input list, where there is one.
fn tagged_list(model: &[u8], tag: &[u8]) -> Result<Option<InputList>, Refusal>
    ensures { Finds list_read (list_under model.now tag.now) result }
{
    let m = opened(model)?;
    let tag = Tag::try_from(tag)?;
    Ok(get_inputs(&m, tag).map(|l| InputList { tag, ..l }))
}

// The input list with that tag, whether the tag has a component or not.
pub fn dw_get_inputs(model: &[u8], tag: &[u8], places: &mut [u8], out: &mut [u8]) -> u32
    ensures { ShowsList (list_under model.now tag.now) places.old places.new out.old out.new result }
{
    show_list(tagged_list(model, tag), places, out)
}
