// What a host calls to add a constant or a function to a model that it holds in bytes (docs/ABI.md). Each is first tried in the bytes themselves, which copies nothing; where that does not say yes, the edit of the decoded record answers.
// Kept: the two ways stand in each call. One function over them would take two closures: six lines where a call has four or five, and the arguments named twice as now; nor could the crates of such calls share it, since it needs a `requires`.
#![tactic(auto)]

ghost use Rattle.model.specs.Edit.{add_constant, add_function};
ghost use Rattle.component_layout.specs.Components.{number};
ghost use Rattle.word_edits.specs.Edits.{function_of};
ghost use Rattle.storing.specs.Called.{Called};

use component_layout::component_numbers::ComponentWords;
use decoded::additions;
use direct_adding::{add_constant_in, add_function_in};
use float::bits::float_of;
use storing::store::tell;
use word_edits::function_of;

pub fn dw_add_constant(model: &mut [u8], tag: &[u8], value: u64, out: &mut [u8]) -> u32
    ensures { Called (add_constant tag.now (number value)) model.old model.new out.old out.new result }
{
    if let Some(t) = add_constant_in(model, tag, float_of(value)) {
        return tell(Ok(Some(t)), out);
    }
    additions::add_constant(model, tag, value, out)
}

pub fn dw_add_function(model: &mut [u8], tag: &[u8], words: ComponentWords, out: &mut [u8]) -> u32
    ensures { Called (add_function tag.now (function_of words)) model.old model.new out.old out.new result }
{
    let f = function_of(words);
    if let Some(t) = add_function_in(model, tag, f) {
        return tell(Ok(Some(t)), out);
    }
    additions::add_function(model, tag, words, out)
}
