// An edit of a model in bytes, through the record that these hold.
ghost use Rattle.model.specs.Edit.{Edit};
ghost use Rattle.storing.specs.Called.{Called};
ghost use Rattle.decoded.specs.Edits.{Edits};

use edit::Edited;
use model::implicit_model::Model;
use opened::read_model;
use storing::store::{store, tell};

// Edits the model in some bytes by value, and stores it there. Bytes that hold no model are 7.
pub(crate) fn edit_in<F: FnOnce(Model) -> Edited>(model: &mut [u8], out: &mut [u8], edit: F) -> u32
    requires { F.IsAlwaysCallable edit }
    ensures { (e : Edit) → Edits e (F.post edit) → Called e model.old model.new out.old out.new result }
{
    match read_model(model) {
        Ok(m) => store(edit(m), model, out),
        Err(refusal) => tell(Err(refusal), out),
    }
}
