// The target's newest tag, followed through the renames.
#![tactic(auto, using(tag::specs::Comparing::pointwise_is))]

ghost use Rattle.std.specs.Prelude.{◌≡◌};
ghost use Rattle.model.specs.Answer.{answer_of};
ghost use Rattle.newest.specs.Carried.{after_rename};

use model::model_error::Answer;

// The newest tag after a rename from the tag `old` to `new`: only one that is taken moves it.
pub fn after<'a>(answer: Answer, newest: &'a [u8], old: &[u8], new: &'a [u8]) -> &'a [u8]
    ensures { result.now ≡ after_rename (answer_of answer) old.now new.now newest.now }
{
    match answer {
        Ok(Some(_)) if newest == old => new,
        Ok(_) | Err(_) => newest,
    }
}
