// What a host calls to add an operation with its inputs, or a component of any kind, to a model that it holds in bytes (docs/ABI.md). Each is first tried in the bytes themselves, which copies nothing; where that does not say yes, the edit of the decoded record answers.
// Kept: the two ways stand in each call. One function over them would take two closures: six lines where a call has four or five, and the arguments named twice as now; nor could the crates of such calls share it, since it needs a `requires`.
#![tactic(auto)]

ghost use Rattle.model.specs.Edit.{add_operation};
ghost use Rattle.input_rows.specs.Inputs.{inputs_of};
ghost use Rattle.word_edits.specs.Edits.{component_edit, operation_of};
ghost use Rattle.storing.specs.Called.{Called};

use component_layout::component_numbers::ComponentWords;
use decoded::additions;
use direct_operation::add_operation_in;
use direct_words::add_component_in_of;
use input_rows::Inputs;
use storing::store::tell;
use word_edits::operation_of;

pub fn dw_add_operation(
    model: &mut [u8],
    tag: &[u8],
    words: ComponentWords,
    inputs: Option<Inputs>,
    out: &mut [u8],
) -> u32
    ensures { Called (add_operation tag.now (operation_of words) (inputs_of inputs.entry)) model.old model.new out.old out.new result }
{
    let op = operation_of(words);
    if let Some(t) = add_operation_in(model, tag, op, inputs) {
        return tell(Ok(Some(t)), out);
    }
    additions::add_operation(model, tag, words, inputs, out)
}

pub fn dw_add_component(model: &mut [u8], tag: &[u8], words: ComponentWords, out: &mut [u8]) -> u32
    ensures { Called (component_edit tag.now words) model.old model.new out.old out.new result }
{
    if let Some(t) = add_component_in_of(model, tag, words) {
        return tell(Ok(Some(t)), out);
    }
    additions::add_component(model, tag, words, out)
}
