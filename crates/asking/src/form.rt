// A form's number at a point.
ghost use Rattle.evaluating.specs.Evaluate.{reply_of};
ghost use Rattle.model_bytes.specs.ModelBytes.{model_in};
ghost use Rattle.asking.specs.Form.{Replies, Evaluates};

use direct::evaluate::evaluate_in;
use evaluating::evaluate::evaluate_at;
use geometry::vec3f::Vec3;
use model::model_error::Refusal;
use opened::{read_model, say_number};

// The number straight from the bytes where that gives one, else as the model decoded answers.
fn number_at(model: &[u8], target: &[u8], p: Vec3) -> Result<u64, Refusal>
    ensures { Replies (model_in model.now) target.now p (reply_of result) }
{
    if let Some(bits) = evaluate_in(model, target, p) {
        return Ok(bits);
    }
    let m = read_model(model)?;
    evaluate_at(&m, target, p)
}

// The number of the target's form at a point, or a refusal.
pub fn dw_evaluate_at(model: &[u8], target: &[u8], p: Vec3, out: &mut [u8]) -> u32
    ensures { Evaluates model.now target.now p out.old out.new result }
{
    say_number(out, number_at(model, target, p))
}
