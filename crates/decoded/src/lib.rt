// The edits of a model in bytes, through the record that these hold: each decodes, edits by value and stores.
#![tactic(auto)]

pub mod additions;
mod edited;

ghost use Rattle.model.specs.Edit.{add_input, remove_input, remove_component, rename_component, set_parameter};
ghost use Rattle.word_edits.specs.Edits.{data_of};
ghost use Rattle.storing.specs.Called.{Called};

use crate::edited::edit_in;
use component_layout::component_words::DataWords;
use word_edits::data_of;

pub fn add_input(model: &mut [u8], target: &[u8], source: &[u8], index: u64, out: &mut [u8]) -> u32
    ensures { Called (add_input target.now source.now index) model.old model.new out.old out.new result }
{
    edit_in(
        model,
        out,
        |m| wiring::add_input(m, target, source, index as usize),
    )
}

pub fn remove_input(model: &mut [u8], tag: &[u8], index: u64, out: &mut [u8]) -> u32
    ensures { Called (remove_input tag.now index) model.old model.new out.old out.new result }
{
    edit_in(
        model,
        out,
        |m| unwiring::remove_input(m, tag, index as usize),
    )
}

pub fn remove_component(model: &mut [u8], tag: &[u8], out: &mut [u8]) -> u32
    ensures { Called (remove_component tag.now) model.old model.new out.old out.new result }
{
    edit_in(model, out, |m| removing::remove_component(m, tag))
}

pub fn rename_component(model: &mut [u8], old: &[u8], new: &[u8], out: &mut [u8]) -> u32
    ensures { Called (rename_component old.now new.now) model.old model.new out.old out.new result }
{
    edit_in(model, out, |m| renaming::rename_component(m, old, new))
}

pub fn set_parameter(
    model: &mut [u8],
    tag: &[u8],
    name: &[u8],
    words: DataWords,
    out: &mut [u8],
) -> u32
    ensures { Called (set_parameter tag.now name.now (data_of words)) model.old model.new out.old out.new result }
{
    let v = data_of(words);
    edit_in(model, out, |m| setting::set_parameter(m, tag, name, v))
}
