// 7 straight from the bytes of a model, the row of a component, and the wires: which component stands in each place of a component's list. It may refuse a model that 7 lets pass, and lets none pass that 7 refuses.
#![tactic(auto)]

mod names;

ghost use Rattle.std.specs.Prelude.{◌≡◌, true, ◌+◌, ◌*◌, ◌≤◌, ◌<◌, min, length, get_or, IfSome};
ghost use Rattle.layout.specs.Words.{word};
ghost use Rattle.standing.specs.Standing.{Names, PlaceNames, Listing, Filled, DefaultNamed, Stood, Owned, Wires, Stands, Passing, RowOfComponent};

use crate::names::{Keys, key};
use finding::{Table, component_in_row, place_text};
use layout::model::{
    COMPONENT_SIZE, COMPONENTS, DEFAULT, LIST_SIZE, LISTS, PLACE_COUNT, PLACE_SIZE, PLACES,
};
use layout::words::{read_text, read_word};
use model_holding::holds::holds;
use tag::Tag;

// What stands in a place of a component's list.
// Kept: no type shared with nodes' Wire, where an unassigned place and a tag that is not found are two cases, and one here.
#[derive(Clone, Copy)]
pub enum Wire {
    // It is unassigned, or no component is found that it names.
    Open,
    // There is no such place.
    Past,
    // The component in this row.
    To(u8),
}

// A key that is found is another tag's: whether the tag is there, the keys do not tell.
#[derive(Clone, Copy)]
struct Untold;

// The components of a model in bytes, and their lists, by the keys of their tags.
#[derive(Clone, Copy)]
struct Components<'a> {
    bytes: &'a [u8],
    keys: &'a Keys,
    lists: &'a Keys,
}

// The row with that tag, sought by the tag's key among the keys of the rows.
fn keyed(bytes: &[u8], keys: &[u64], key: u64, tag: &[u8]) -> Option<usize>
    requires { length keys.now ≤ 128 }
    ensures { IfSome result (Names bytes.now (length keys.now) tag.now) }
{
    let i = keys.iter().position(|k| *k == key)?;
    (read_text(bytes, COMPONENTS + COMPONENT_SIZE * i) == tag).then_some(i)
}

// The row of a tag in a model's bytes, by the keys of the first n rows: any keys will do. None too where n is past the table.
// Kept: it answers of any keys and any count, as it did before there was a `Standing`, and a type for both would ask more of callers; only `Standing::row_of` calls it today.
pub fn component_of_tag(bytes: &[u8], keys: &[u64; 128], n: usize, tag: &[u8]) -> Option<usize>
    ensures { IfSome result (Names bytes.now (min n 64) tag.now) }
{
    if 64 < n {
        return None;
    }
    keyed(bytes, &keys[..n], key(tag, 0), tag)
}

impl<'a> Components<'a> {
    // The row of the component that a place names.
    fn named_at(&self, at: usize) -> Option<usize>
        requires { at < 27200 }
        ensures { IfSome result (PlaceNames self.now.bytes.now self.now.keys.now.count at) }
    {
        let tag = place_text(self.bytes, at)?;
        keyed(
            self.bytes,
            self.keys.as_slice(),
            key(self.bytes, at + 8),
            tag,
        )
    }

    // Whether the default is none, or names a component.
    fn default_stands(&self) -> bool
        ensures { result ≡ true → DefaultNamed self.now.bytes.now self.now.keys.now.count }
    {
        read_word(self.bytes, DEFAULT) == 0 || self.named_at(DEFAULT).is_some()
    }

    // The row of the list of the component in a row.
    fn list_of(&self, i: usize) -> Result<Option<usize>, Untold>
        requires { i < 128 }
        ensures { Listing self.now.bytes.now self.now.lists.now.of self.now.lists.now.count (get_or self.now.keys.now.of i 0) i result }
    {
        let Some(j) = self.lists.row_of(self.keys.of[i]) else {
            return Ok(None);
        };
        let list = read_text(self.bytes, LISTS + LIST_SIZE * j);
        let component = read_text(self.bytes, COMPONENTS + COMPONENT_SIZE * i);
        (list == component).then_some(Some(j)).ok_or(Untold)
    }

    // What stands in place p of a list that has `places` places.
    fn wire(&self, list: usize, places: u64, p: usize) -> Wire
        requires { (list < 128) × (p < 3) × (places ≡ word self.now.bytes.now (5736 + 168 * list)) }
        ensures { Stood self.now.bytes.now self.now.keys.now.count list p result }
    {
        if places <= p as u64 {
            return Wire::Past;
        }
        match self.named_at(LISTS + PLACES + LIST_SIZE * list + PLACE_SIZE * p) {
            Some(row) => Wire::To(row as u8),
            None => Wire::Open,
        }
    }

    // The wires of the component in a row, where its list has as many places as it takes inputs.
    fn wires_of(&self, i: usize) -> Option<[Wire; 3]>
        requires { i < 64 }
        ensures { IfSome result (Owned self.now.bytes.now self.now.keys.now.count self.now.lists.now.of self.now.lists.now.count (get_or self.now.keys.now.of i 0) i) }
    {
        let n = component_in_row(self.bytes, i)?.input_count();
        let Some(list) = self.list_of(i).ok()? else {
            return (n == 0).then_some([Wire::Past; 3]);
        };
        let places = read_word(self.bytes, LISTS + PLACE_COUNT + LIST_SIZE * list);
        if n != 0 && places != n as u64 {
            return None;
        }
        // Kept: tried by `map` over the three places; the goal `map-requires` stayed open.
        Some([
            self.wire(list, places, 0),
            self.wire(list, places, 1),
            self.wire(list, places, 2),
        ])
    }

    // The wires of all.
    fn wires(&self) -> Option<[[Wire; 3]; 64]>
        requires { self.now.keys.now.count ≤ 64 }
        ensures { IfSome result (Wires self.now.bytes.now self.now.keys.now.count self.now.lists.now.of self.now.lists.now.count self.now.keys.now.of) }
    {
        let mut wires = [[Wire::Past; 3]; 64];
        for i in 0..self.keys.count {
            wires[i] = self.wires_of(i)?;
        }
        Some(wires)
    }
}

// Whether each of the first n lists has a place.
fn are_filled(s: &[u8], n: usize) -> bool
    requires { n ≤ 128 }
    ensures { result ≡ true → Filled s.now n }
{
    (0..n).all(|j| read_word(s, LISTS + PLACE_COUNT + LIST_SIZE * j) != 0)
}

// Three wires for each component.
// Kept: a struct of its own; the borrow checker has no rule for an array of arrays beside a reference in one struct, as it would stand in `Standing`.
#[derive(Clone, Copy)]
pub struct Wiring(pub [[Wire; 3]; 64]);

// The bytes of a model that 7 lets pass, with its components by the keys of their tags, and three wires for each.
#[derive(Clone, Copy)]
pub struct Standing<'a> {
    pub bytes: &'a [u8],
    keys: Keys,
    pub wires: Wiring,
    ghost few: { keys.count ≤ 64 },
}

impl<'a> Standing<'a> {
    // How many components there are.
    pub fn count(&self) -> usize
        ensures { result ≡ self.now.keys.count }
    {
        self.keys.count
    }

    // The row of a tag.
    pub fn row_of(&self, tag: &[u8]) -> Option<usize>
        ensures { IfSome result (Names self.now.bytes.now self.now.keys.count tag.now) }
    {
        component_of_tag(self.bytes, &self.keys.of, self.keys.count, tag)
    }
}

// A model that 7 lets pass, with its wires.
pub fn wired(s: &[u8]) -> Option<Standing>
    ensures { IfSome result (λ w. (w.bytes.now ≡ s.now) × Stands s.now w.keys.count w.wires.0) }
{
    if !holds(s) {
        return None;
    }
    let keys = Keys::read(s, Table::Components);
    let lists = Keys::read(s, Table::Lists);
    if !keys.are_apart() || !lists.are_apart() || !are_filled(s, lists.count) {
        return None;
    }
    let components = Components {
        bytes: s,
        keys: &keys,
        lists: &lists,
    };
    if !components.default_stands() {
        return None;
    }
    let wires = components.wires()?;
    Some(Standing {
        bytes: s,
        keys,
        wires: Wiring(wires),
    })
}

// Whether the bytes hold a model that 7 lets pass. A yes is right.
pub fn stands(s: &[u8]) -> bool
    ensures { result ≡ true → Passing s.now }
{
    wired(s).is_some()
}

// The row of a component, where the bytes hold a model that 7 lets pass, and the tag is no longer than one may be.
pub fn row_of_component(s: &[u8], tag: &[u8]) -> Option<usize>
    ensures { IfSome result (RowOfComponent s.now tag.now) }
{
    if !stands(s) {
        return None;
    }
    Tag::try_from(tag).ok()?;
    Table::Components.row_of(s, tag)
}
