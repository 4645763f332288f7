// `add_input` and `remove_input` in the bytes of a model. A yes is right; a no changes nothing, and says nothing of the edit.
#![tactic(auto)]

ghost use Rattle.std.specs.Prelude.{is_some};
ghost use Rattle.model.specs.Edit.{add_input, remove_input, done};
ghost use Rattle.model.specs.View.{place_of};
ghost use Rattle.direct_rows.specs.Took.{Takes};
ghost use Rattle.direct_wiring.specs.Placing.{PlacesIn};

use direct::clear::is_clear;
use direct_rows::put::put_place;
use finding::Table;
use layout::model::{LIST_SIZE, LISTS, PLACE_COUNT};
use layout::words::read_word;
use model::implicit_model::Place;
use standing::{stands, wired};
use tag::Tag;

// Writes one place of the list of a tag; None where there is no such place.
fn place_in(s: &mut [u8], tag: &[u8], index: usize, p: Place) -> Option<()>
    ensures { PlacesIn tag.now index (place_of p) s.old s.new (is_some result) }
{
    let j = Table::Lists.row_of(s, tag)?;
    if read_word(s, LISTS + PLACE_COUNT + LIST_SIZE * j) <= index as u64 {
        return None;
    }
    put_place(s, j, index, p);
    Some(())
}

// The place left unassigned; None where nothing is written.
pub fn remove_input_in(s: &mut [u8], tag: &[u8], index: usize) -> Option<()>
    ensures { Takes (remove_input tag.now index) done s.old s.new (is_some result) }
{
    if !stands(s) {
        return None;
    }
    // The tag is no longer than one may be.
    Tag::try_from(tag).ok()?;
    place_in(s, tag, index, None)
}

// The place wired to the source; None where nothing is written.
pub fn add_input_in(s: &mut [u8], target: &[u8], source: &[u8], index: usize) -> Option<()>
    ensures { Takes (add_input target.now source.now index) done s.old s.new (is_some result) }
{
    let standing = wired(s)?;
    // The target's tag is no longer than one may be.
    Tag::try_from(target).ok()?;
    let t = Tag::try_from(source).ok()?;
    let target_row = Table::Components.row_of(s, target)?;
    let source_row = Table::Components.row_of(s, source)?;
    if !is_clear(&standing.wires.0, standing.count(), target_row, source_row) {
        return None;
    }
    place_in(s, target, index, Some(t))
}
