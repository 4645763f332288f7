// Writing a model into bytes: rows, then the model.
ghost use Rattle.std.specs.Prelude.{◌≡◌, true, ◌+◌, ◌*◌, ◌≤◌, length, map};
ghost use Rattle.std.proofs.Math.Option.{some};
ghost use Rattle.model.specs.View.{every, place_fits, component_of, entry_fits, list_of, list_fits};
ghost use Rattle.rows.specs.Rows.{rows_in};
ghost use Rattle.rows.specs.Written.{Wrote};
ghost use Rattle.model_bytes.specs.ModelBytes.{entry_in, list_in, entry_row, list_row};
ghost use Rattle.model_writing.specs.Steps.{Header};
ghost use Rattle.model_writing.specs.Calls.{Encodes};

use crate::sizes::model_fits;
use layout::model::{
    COMPONENT, COMPONENT_COUNT, COMPONENT_SIZE, COMPONENTS, DEFAULT, LIST_COUNT, LIST_SIZE, LISTS,
    MODEL_SIZE, PLACE_COUNT, PLACES, VERSION,
};
use model::implicit_model::{ComponentEntry, InputList, Model, Place};
use rows::writing::{write_component, write_number, write_place, write_places, write_tag};

// Kept: crate direct_rows writes an entry and a list by the same lines. Its functions are public, and say also what is left alone of other bytes and past the tables; public ones here would need clauses for bytes with no room, which they would have to test for first.
fn write_entry(s: &mut [u8], at: usize, e: &ComponentEntry)
    requires { (at + 88 ≤ length s.old) × (entry_fits e.now ≡ true) }
    ensures { Wrote (λ u. entry_in u at) (some (component_of e.now)) at 88 s.old s.new }
{
    write_tag(s, at, e.tag);
    write_component(s, at + COMPONENT, e.component);
}

fn write_list(s: &mut [u8], at: usize, l: &InputList)
    requires { (at + 168 ≤ length s.old) × (list_fits l.now ≡ true) }
    ensures { Wrote (λ u. list_in u at) (some (list_of l.now)) at 168 s.old s.new }
{
    write_tag(s, at, l.tag);
    write_number(s, at + PLACE_COUNT, l.count as u64);
    write_places(s, at + PLACES, *l);
}

// Kept: two loops of one line. One over both tables would take where it begins, a row's width and the writer, with clauses for what each call leaves; and the length of the bytes is a clause of each, since a type for it would be made and taken apart at each call.
fn write_components(s: &mut [u8], table: &[ComponentEntry])
    requires { (length table.now ≤ 64) × ((length s.old ≡ 27200) × (every (map entry_fits table.now) ≡ true)) }
    ensures { Wrote (λ u. rows_in (entry_row u) (length table.now)) (some (map component_of table.now)) 64 (88 * length table.now) s.old s.new }
{
    for (i, e) in table.iter().enumerate() {
        write_entry(s, COMPONENTS + COMPONENT_SIZE * i, e);
    }
}

fn write_lists(s: &mut [u8], table: &[InputList])
    requires { (length table.now ≤ 128) × ((length s.old ≡ 27200) × (every (map list_fits table.now) ≡ true)) }
    ensures { Wrote (λ u. rows_in (list_row u) (length table.now)) (some (map list_of table.now)) 5696 (168 * length table.now) s.old s.new }
{
    for (i, l) in table.iter().enumerate() {
        write_list(s, LISTS + LIST_SIZE * i, l);
    }
}

fn write_header(s: &mut [u8], n: usize, k: usize, default: Place)
    requires { (length s.old ≡ 27200) × (place_fits default ≡ true) }
    ensures { Header n k default s.old s.new }
{
    write_number(s, VERSION, 1);
    write_number(s, COMPONENT_COUNT, n as u64);
    write_number(s, LIST_COUNT, k as u64);
    write_place(s, DEFAULT, default);
}

// Writes the model, where the slice has the layout's length and the record is within its sizes; else answers false and writes nothing.
pub fn encode(m: &Model, out: &mut [u8]) -> bool
    ensures { Encodes m.now out.old out.new result }
{
    if out.len() != MODEL_SIZE || !model_fits(m) {
        return false;
    }
    write_header(out, m.component_count, m.list_count, m.default);
    write_components(out, m.live_components());
    write_lists(out, m.live_lists());
    true
}
