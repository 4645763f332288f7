// What a host calls to add a component to a model that it has in bytes.
ghost use Rattle.model.specs.Edit.{add_constant, add_function, add_operation};
ghost use Rattle.component_layout.specs.Components.{number};
ghost use Rattle.component_layout.specs.Numbers.{five};
ghost use Rattle.storing.specs.Called.{Called};
ghost use Rattle.word_edits.specs.Edits.{function_of, operation_of, component_edit};
ghost use Rattle.edit_rows.specs.EditRows.{given as inputsGiven};

use component_layout::component_numbers::ComponentWords;
use edit_rows::inputs_word::inputs_given;

#[unsafe(no_mangle)]
pub extern "C" fn dw_add_constant(model: &mut [u8], tag: &[u8], value: u64, out: &mut [u8]) -> u32
    ensures { Called (add_constant tag.now (number value)) model.old model.new out.old out.new result }
{
    adding_calls::dw_add_constant(model, tag, value, out)
}

#[unsafe(no_mangle)]
pub extern "C" fn dw_add_function(
    model: &mut [u8],
    tag: &[u8],
    kind: u64,
    a: u64,
    b: u64,
    c: u64,
    d: u64,
    e: u64,
    out: &mut [u8],
) -> u32
    ensures { Called (add_function tag.now (function_of (five kind a b c d e))) model.old model.new out.old out.new result }
{
    let words = ComponentWords {
        kind,
        a,
        b,
        c,
        d,
        e,
    };
    adding_calls::dw_add_function(model, tag, words, out)
}

#[unsafe(no_mangle)]
pub extern "C" fn dw_add_operation(
    model: &mut [u8],
    tag: &[u8],
    kind: u64,
    a: u64,
    b: u64,
    c: u64,
    d: u64,
    e: u64,
    given: u64,
    first: &[u8],
    second: &[u8],
    third: &[u8],
    out: &mut [u8],
) -> u32
    ensures { Called (add_operation tag.now (operation_of (five kind a b c d e)) (inputsGiven given first.now second.now third.now)) model.old model.new out.old out.new result }
{
    let words = ComponentWords {
        kind,
        a,
        b,
        c,
        d,
        e,
    };
    let inputs = inputs_given(given, first, second, third);
    adding_operation_calls::dw_add_operation(model, tag, words, inputs, out)
}

#[unsafe(no_mangle)]
pub extern "C" fn dw_add_component(
    model: &mut [u8],
    tag: &[u8],
    kind: u64,
    a: u64,
    b: u64,
    c: u64,
    d: u64,
    e: u64,
    out: &mut [u8],
) -> u32
    ensures { Called (component_edit tag.now (five kind a b c d e)) model.old model.new out.old out.new result }
{
    let words = ComponentWords {
        kind,
        a,
        b,
        c,
        d,
        e,
    };
    adding_operation_calls::dw_add_component(model, tag, words, out)
}
