// The three edits of a component that a model in bytes holds: removal, renaming, parameters. Each is first tried in the bytes themselves, which copies nothing; where that does not say yes, the edit of the decoded record answers.
// Kept: the two ways stand in each call. One function over them would take two closures: six lines where a call has four or five, and the arguments named twice as now; nor could the crates of such calls share it, since it needs a `requires`.
ghost use Rattle.model.specs.Edit.{remove_component, rename_component, set_parameter};
ghost use Rattle.word_edits.specs.Edits.{data_of};
ghost use Rattle.storing.specs.Called.{Called};

use component_layout::component_words::DataWords;
use direct_removing::remove_component_in;
use direct_renaming::rename_component_in;
use direct_setting::set_parameter_in;
use storing::store::tell;
use word_edits::data_of;

pub fn dw_remove_component(model: &mut [u8], tag: &[u8], out: &mut [u8]) -> u32
    ensures { Called (remove_component tag.now) model.old model.new out.old out.new result }
{
    if remove_component_in(model, tag).is_some() {
        return tell(Ok(None), out);
    }
    decoded::remove_component(model, tag, out)
}

pub fn dw_rename_component(model: &mut [u8], old: &[u8], new: &[u8], out: &mut [u8]) -> u32
    ensures { Called (rename_component old.now new.now) model.old model.new out.old out.new result }
{
    if let Some(t) = rename_component_in(model, old, new) {
        return tell(Ok(Some(t)), out);
    }
    decoded::rename_component(model, old, new, out)
}

pub fn dw_set_parameter(
    model: &mut [u8],
    tag: &[u8],
    name: &[u8],
    words: DataWords,
    out: &mut [u8],
) -> u32
    ensures { Called (set_parameter tag.now name.now (data_of words)) model.old model.new out.old out.new result }
{
    let v = data_of(words);
    if set_parameter_in(model, tag, name, v).is_some() {
        return tell(Ok(None), out);
    }
    decoded::set_parameter(model, tag, name, words, out)
}
