// What an edit of a model hands back, and how it refuses.
#![tactic(auto)]

ghost use Rattle.model.specs.Answer.{refusal_of};
ghost use Rattle.edit.specs.Ends.{Ends};

use model::implicit_model::Model;
use model::model_error::{Answer, Refusal};

// An answer, with the model after the call: a refusal leaves it as it was, in the edits by value and on a lent model alike.
// Kept: each of the nine edits by value calls its form on a lent model and hands both back. The nine stand in eight crates, since a wrong program proves its whole crate again; one function for all would have to be public, take the edit as a closure, and so have a `requires`.
#[derive(Clone, Copy)]
pub struct Edited {
    pub answer: Answer,
    pub model: Model,
}

impl Edited {
    // A refused edit: the model as it was.
    pub fn refused(model: Model, refusal: Refusal) -> Edited
        ensures { Ends (refusal_of refusal) model result }
    {
        Edited {
            answer: Err(refusal),
            model,
        }
    }
}
