// What a host calls to set and to remove a wire of a model that it holds in bytes (docs/ABI.md). Each is first tried in the bytes themselves, which copies nothing; where that does not say yes, the edit of the decoded record answers.
// Kept: the two ways stand in each call. One function over them would take two closures: six lines where a call has four or five, and the arguments named twice as now; nor could the crates of such calls share it, since it needs a `requires`.
#![tactic(auto)]

ghost use Rattle.model.specs.Edit.{add_input, remove_input};
ghost use Rattle.storing.specs.Called.{Called};

use direct_wiring::{add_input_in, remove_input_in};
use storing::store::tell;

pub fn dw_add_input(
    model: &mut [u8],
    target: &[u8],
    source: &[u8],
    index: u64,
    out: &mut [u8],
) -> u32
    ensures { Called (add_input target.now source.now index) model.old model.new out.old out.new result }
{
    if add_input_in(model, target, source, index as usize).is_some() {
        return tell(Ok(None), out);
    }
    decoded::add_input(model, target, source, index, out)
}

pub fn dw_remove_input(model: &mut [u8], tag: &[u8], index: u64, out: &mut [u8]) -> u32
    ensures { Called (remove_input tag.now index) model.old model.new out.old out.new result }
{
    if remove_input_in(model, tag, index as usize).is_some() {
        return tell(Ok(None), out);
    }
    decoded::remove_input(model, tag, index, out)
}
