// How an edit of a model in bytes ends: the report, and the model after it.
ghost use Rattle.model.specs.Answer.{answer_of};
ghost use Rattle.storing.specs.Steps.{Told, Stored};

use edit::Edited;
use model::model_error::Answer;
use model_writing::encode::encode;
use opened::{say_nothing, say_refusal, say_tagged};

// The report of an edit: only a refusal has an index, and only a tag that was made or that a refusal carries is reported.
pub fn tell(a: Answer, out: &mut [u8]) -> u32
    ensures { Told (answer_of a) out.old out.new result }
{
    match a {
        Ok(None) => say_nothing(out),
        Ok(Some(t)) => say_tagged(out, t, 0),
        Err(r) => say_refusal(out, r),
    }
}

// How an edit of a model that bytes held ends: they hold the model after it, unless it is refused.
pub fn store(r: Edited, model: &mut [u8], out: &mut [u8]) -> u32
    ensures { Stored r model.old model.new out.old out.new result }
{
    if r.answer.is_ok() {
        encode(&r.model, model);
    }
    tell(r.answer, out)
}
