// What a host calls to begin a model in bytes, and to run a list of edits with the form asked after it (docs/ABI.md).
#![tactic(auto)]

ghost use Rattle.edit_rows.specs.EditRows.{edits_of};
ghost use Rattle.storing.specs.Steps.{Put};
ghost use Rattle.edit_lists.specs.Lists.{Begun, Begins, AskedAfter};

use geometry::vec3f::Vec3;
use layout::model::MODEL_SIZE;
use model::implicit_model::Model;
use model::model_error::{Answer, ModelError, Refusal};
use model_bytes::decode::decode;
use model_writing::encode::encode;
use opened::say_number;
use steady::evaluate_after;
use storing::store::tell;

// A new model written; a slice of another length is left alone.
fn begin(model: &mut [u8]) -> Answer
    ensures { Begins model.old model.new result }
{
    if model.len() != MODEL_SIZE {
        return Err(Refusal::plain(ModelError::InvalidModel));
    }
    encode(&held::reading::new(), model);
    Ok(None)
}

// Writes a new model; a slice of another length is 7 and is left alone.
pub fn dw_new(model: &mut [u8], out: &mut [u8]) -> u32
    ensures { Begun model.old model.new out.old out.new result }
{
    tell(begin(model), out)
}

// Writes the model after a list.
// Kept: the model by value. Tried as `encode(&m, model)` in `dw_evaluate_after`; the goal `returns` stays open: `Put` also says that the tables have their sizes, which a parameter tells, and of a lent model only a slice of each table.
fn put(m: Model, model: &mut [u8])
    ensures { Put m model.old model.new }
{
    encode(&m, model);
}

// The list run on a copy, and the form asked after it; the model after the list is stored only where the asking was answered.
// Kept: an inner function that leaves by `?` would be no plainer. It would promise all of `AskedAfter` but the code and the report, in a clause of its own beside it, to save one `let else`.
pub fn dw_evaluate_after(
    model: &mut [u8],
    edits: &[u8],
    target: &[u8],
    p: Vec3,
    out: &mut [u8],
) -> u32
    ensures { AskedAfter (edits_of edits.now) target.now p model.old model.new out.old out.new result }
{
    let Some(mut m) = decode(model) else {
        return tell(Err(Refusal::plain(ModelError::InvalidModel)), out);
    };
    let reply = evaluate_after(&mut m, edits, target, p);
    if reply.is_ok() {
        put(m, model);
    }
    say_number(out, reply)
}
