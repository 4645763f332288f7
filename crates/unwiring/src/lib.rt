// Unwiring: `remove_input`.
#![tactic(auto)]

ghost use Rattle.model.specs.Edit.{remove_input};
ghost use Rattle.edit.specs.Meets.{Meets};

use edit::Edited;
use held::find::held_list;
use model::implicit_model::Model;
use model::model_error::{Answer, ModelError, Refusal};
use tag::Tag;

pub fn remove_input_from(m: &mut Model, tag: &[u8], index: usize) -> Answer
    ensures { Meets (remove_input tag.now index) m.old (record { answer = result; model = m.new }) }
{
    validity::check(m)?;
    let tag = Tag::try_from(tag)?;
    let row = held_list(m, tag)?;
    if m.lists[row].live_places().len() <= index {
        return Err(Refusal::at(ModelError::InputIndexOutOfRange, tag, index));
    }
    placing::place(m, row, index, None)
}

pub fn remove_input(m: Model, tag: &[u8], index: usize) -> Edited
    ensures { Meets (remove_input tag.now index) m result }
{
    let mut model = m;
    let answer = remove_input_from(&mut model, tag, index);
    Edited { answer, model }
}
