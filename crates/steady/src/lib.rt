// A list of edits run on a model, and the form asked after it.
#![tactic(auto)]

mod list;

ghost use Rattle.edit_rows.specs.EditRows.{edits_of};
ghost use Rattle.steady.specs.Steadied.{After};

use edit_rows::edit_row::are_edits;
use evaluating::evaluate::evaluate_at;
use geometry::vec3f::Vec3;
use model::implicit_model::Model;
use model::model_error::{ModelError, Refusal};

// The edits run one after the other, each on the model that the one before left, and the form asked after the last, the target under its newest tag.
// Bytes that are no list of edits are refused with 7, and change nothing.
pub fn evaluate_after(
    model: &mut Model,
    edits: &[u8],
    target: &[u8],
    p: Vec3,
) -> Result<u64, Refusal>
    ensures { After (edits_of edits.now) model.old target.now p model.new result }
{
    if !are_edits(edits) {
        return Err(Refusal::plain(ModelError::InvalidModel));
    }
    let newest = list::run_list(model, edits, target);
    evaluate_at(model, newest, p)
}
