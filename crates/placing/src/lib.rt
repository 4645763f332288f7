// One place of an input list replaced: what wiring and unwiring end in.
#![tactic(auto)]

ghost use Rattle.std.specs.Prelude.{◌≡◌, get_or};
ghost use Rattle.model.specs.declared.implicit_model.InputList.{InputList};
ghost use Rattle.model.specs.Edit.{done};
ghost use Rattle.edit.specs.Ends.{Ends};
ghost use Rattle.edit.specs.Rows.{with_list};
ghost use Rattle.placing.specs.Placing.{placed_at};

use model::implicit_model::{InputList, Model, Place};
use model::model_error::Answer;

// The list with one place replaced; as it was, where there is no such place.
// Kept: tried within `place`, and the goal `returns-else-row-lists`, where the place is past the end, stays open: through a reference to a model nothing says that a row has 3 places, and a slice of a row of a slice is what the borrow checker does not cover.
fn placed(l: InputList, index: usize, place: Place) -> InputList
    ensures { result ≡ placed_at l index place }
{
    let mut list = l;
    if index < list.places.len() {
        list.places[index] = place;
    }
    list
}

// The edit is done: one place of the list at a row is replaced. Where there is no such row, the model is as it was.
pub fn place(m: &mut Model, row: usize, index: usize, to: Place) -> Answer
    ensures { (d : InputList) → Ends done (with_list m.old row (placed_at (get_or m.old.lists row d) index to)) (record { answer = result; model = m.new }) }
{
    let lists: &mut [InputList] = &mut m.lists;
    if row < lists.len() {
        lists[row] = placed(lists[row], index, to);
    }
    Ok(None)
}
