// A list of edits, run row by row.
ghost use Rattle.steady.specs.Steps.{Listed};

use edit_rows::edit_row::read;
use model::implicit_model::Model;
use row_running::run_change;

// Every row's edit run, each on the model that the one before left; the target's newest tag after them.
#[tactic(auto, using(crate::proofs::Laws::Rows::rest_start))]
pub(crate) fn run_list<'a>(model: &mut Model, s: &'a [u8], target: &'a [u8]) -> &'a [u8]
    ensures { Listed s.now model.old target.now model.new result.now }
{
    let mut newest = target;
    let (rows, _) = s.as_chunks::<256>();
    for row in rows {
        if let Some(change) = read(row) {
            newest = run_change(model, change, newest);
        }
    }
    newest
}
