// Places that name a tag changed, in the bytes of a model: one place, one list, every list and the default.
// Kept: crate removing does the same in a record. A function over both stores would take a trait of a store, with laws for each.
#![tactic(auto)]

ghost use Rattle.std.specs.Prelude.{◌+◌, ◌*◌, ◌≤◌, length};
ghost use Rattle.model.specs.View.{place_of};
ghost use Rattle.direct_swapping.specs.Swapping.{NamesTag, PlaceSwapped, ListSwapped, Swapped};

use finding::{Table, place_text};
use layout::model::{DEFAULT, LIST_SIZE, LISTS, MODEL_SIZE, PLACE_COUNT, PLACE_SIZE, PLACES};
use layout::words::read_word;
use model::implicit_model::Place;
use rows::writing::write_place;

// Whether the place at a byte names the tag.
fn names(s: &[u8], at: usize, t: &[u8]) -> bool
    requires { at + 40 ≤ length s.now }
    ensures { NamesTag s.now at t.now result }
{
    place_text(s, at) == Some(t)
}

// A place, replaced where it names the tag.
fn swap_place(s: &mut [u8], at: usize, t: &[u8], p: Place)
    requires { at + 40 ≤ length s.old }
    ensures { PlaceSwapped t.now (place_of p) at s.old s.new }
{
    if names(s, at, t) {
        write_place(s, at, p);
    }
}

// A list, with each place replaced that names the tag.
fn swap_list(s: &mut [u8], j: usize, t: &[u8], p: Place)
    requires { 5864 + 168 * j ≤ length s.old }
    ensures { ListSwapped t.now (place_of p) j s.old s.new }
{
    let n = (read_word(s, LISTS + PLACE_COUNT + LIST_SIZE * j) as usize).min(3);
    for k in 0..n {
        swap_place(s, LISTS + PLACES + LIST_SIZE * j + PLACE_SIZE * k, t, p);
    }
}

// Every place of the lists and the default replaced that names the tag. Of other bytes than a model's size nothing is changed.
pub fn swap_places(s: &mut [u8], t: &[u8], p: Place)
    ensures { Swapped t.now (place_of p) s.old s.new }
{
    if s.len() != MODEL_SIZE {
        return;
    }
    for j in 0..Table::Lists.count(s) {
        swap_list(s, j, t, p);
    }
    swap_place(s, DEFAULT, t, p);
}
