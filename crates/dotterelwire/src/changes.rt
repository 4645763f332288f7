// What a host calls to remove, rename or wire a component of a model that it has in bytes, or to set a parameter of it.
ghost use Rattle.model.specs.Edit.{remove_component, rename_component, set_parameter, add_input, remove_input};
ghost use Rattle.storing.specs.Called.{Called};
ghost use Rattle.word_edits.specs.Edits.{data_of};

use component_layout::component_words::DataWords;

#[unsafe(no_mangle)]
pub extern "C" fn dw_remove_component(model: &mut [u8], tag: &[u8], out: &mut [u8]) -> u32
    ensures { Called (remove_component tag.now) model.old model.new out.old out.new result }
{
    calls::edits::dw_remove_component(model, tag, out)
}

#[unsafe(no_mangle)]
pub extern "C" fn dw_rename_component(
    model: &mut [u8],
    old: &[u8],
    new: &[u8],
    out: &mut [u8],
) -> u32
    ensures { Called (rename_component old.now new.now) model.old model.new out.old out.new result }
{
    calls::edits::dw_rename_component(model, old, new, out)
}

#[unsafe(no_mangle)]
pub extern "C" fn dw_set_parameter(
    model: &mut [u8],
    tag: &[u8],
    name: &[u8],
    kind: u64,
    a: u64,
    b: u64,
    c: u64,
    out: &mut [u8],
) -> u32
    ensures { Called (set_parameter tag.now name.now (data_of (record { kind = kind; a = a; b = b; c = c }))) model.old model.new out.old out.new result }
{
    let words = DataWords { kind, a, b, c };
    calls::edits::dw_set_parameter(model, tag, name, words, out)
}

#[unsafe(no_mangle)]
pub extern "C" fn dw_add_input(
    model: &mut [u8],
    target: &[u8],
    source: &[u8],
    index: u64,
    out: &mut [u8],
) -> u32
    ensures { Called (add_input target.now source.now index) model.old model.new out.old out.new result }
{
    wiring_calls::dw_add_input(model, target, source, index, out)
}

#[unsafe(no_mangle)]
pub extern "C" fn dw_remove_input(model: &mut [u8], tag: &[u8], index: u64, out: &mut [u8]) -> u32
    ensures { Called (remove_input tag.now index) model.old model.new out.old out.new result }
{
    wiring_calls::dw_remove_input(model, tag, index, out)
}
