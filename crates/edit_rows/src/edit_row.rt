// A row of 256 bytes: the edit that it holds, and whether bytes are a list of edits.
ghost use Rattle.std.specs.Prelude.{◌≡◌, ◌≤◌, true};
ghost use Rattle.component_layout.specs.Components.{component_read, data_read};
ghost use Rattle.input_rows.specs.Inputs.{inputs_of};
ghost use Rattle.layout.specs.Some.{is_some};
ghost use Rattle.layout.specs.Words.{word, text};
ghost use Rattle.edit_rows.specs.EditRows.{texts_fit, component_at, data_at, given, edit_at, edits_of};
ghost use Rattle.edit_rows.specs.Changes.{change_read};

use crate::inputs_word::inputs_given;
use component::model_component::Component;
use component::parameter::Data;
use component_layout::component_words::{DataWords, component_from, data_from, words_at};
use float::bits::float_of;
use input_rows::Inputs;
use layout::words::{read_text, read_word};

// Where the parts of a row stand in its bytes (docs/LAYOUT.md, "A list of edits"). The edit's number comes first.
const EDIT: usize = 0;

// The kind of a component or of data, and its numbers, a word each.
const KIND: usize = 8;

const NUMBERS: usize = 16;

// The index, or the count of given inputs and 1.
const INDEX: usize = 56;

// The four strings, each a length and its bytes.
const TAG: usize = 64;

const SECOND: usize = 112;

const THIRD: usize = 160;

const FOURTH: usize = 208;

// How many bytes a string has room for.
const TEXT_SIZE: u64 = 40;

// An edit of a list, with its arguments.
#[derive(Clone, Copy)]
pub enum Change<'a> {
    AddOperation {
        tag: &'a [u8],
        operation: Component,
        inputs: Option<Inputs<'a>>,
    },
    AddConstant {
        tag: &'a [u8],
        value: f64,
    },
    AddFunction {
        tag: &'a [u8],
        function: Component,
    },
    AddComponent {
        tag: &'a [u8],
        component: Component,
    },
    AddInput {
        target: &'a [u8],
        source: &'a [u8],
        index: usize,
    },
    RemoveInput {
        tag: &'a [u8],
        index: usize,
    },
    RemoveComponent {
        tag: &'a [u8],
    },
    RenameComponent {
        old: &'a [u8],
        new: &'a [u8],
    },
    SetParameter {
        tag: &'a [u8],
        name: &'a [u8],
        value: Data,
    },
}

pub type Row = [u8; 256];

// No string of the row is longer than its 40 bytes.
#[tactic(auto, unfolding(crate::specs::EditRows::texts_fit))]
fn texts_fit(row: &Row) -> bool
    ensures { result ≡ texts_fit row.now 0 }
{
    read_word(row, TAG) <= TEXT_SIZE
        && read_word(row, SECOND) <= TEXT_SIZE
        && read_word(row, THIRD) <= TEXT_SIZE
        && read_word(row, FOURTH) <= TEXT_SIZE
}

// The component of the row.
#[tactic(auto, unfolding(crate::specs::EditRows::component_at))]
fn component(row: &Row) -> Option<Component>
    ensures { component_read result ≡ component_at row.now 0 }
{
    component_from(words_at(row, KIND))
}

// What the row sets a parameter to.
#[tactic(auto, unfolding(crate::specs::EditRows::data_at))]
fn data(row: &Row) -> Option<Data>
    ensures { data_read result ≡ data_at row.now 0 }
{
    data_from(DataWords {
        kind: read_word(row, KIND),
        a: read_word(row, NUMBERS),
        b: read_word(row, NUMBERS + 8),
        c: read_word(row, NUMBERS + 16),
    })
}

// The inputs that a new operation is given.
fn inputs(row: &Row) -> Option<Inputs<'_>>
    ensures { inputs_of result ≡ given (word row.now 56) (text row.now 112) (text row.now 160) (text row.now 208) }
{
    inputs_given(
        read_word(row, INDEX),
        read_text(row, SECOND),
        read_text(row, THIRD),
        read_text(row, FOURTH),
    )
}

// An edit that adds a component, of the numbers 1 to 4; the others are none.
#[tactic(auto, using(crate::proofs::Laws::edit_is))]
fn adding(row: &Row) -> Option<Change<'_>>
    requires number { 5 ≤ word row.now 0 → 10 ≤ word row.now 0 }
    requires fits { texts_fit row.now 0 ≡ true }
    ensures { change_read result ≡ edit_at row.now 0 }
{
    let tag = read_text(row, TAG);
    match read_word(row, EDIT) {
        1 => Some(Change::AddOperation {
            tag,
            operation: component(row)?,
            inputs: inputs(row),
        }),
        2 => Some(Change::AddConstant {
            tag,
            value: float_of(read_word(row, NUMBERS)),
        }),
        3 => Some(Change::AddFunction {
            tag,
            function: component(row)?,
        }),
        4 => Some(Change::AddComponent {
            tag,
            component: component(row)?,
        }),
        _ => None,
    }
}

// The edit of a row.
#[tactic(auto, using(crate::proofs::Laws::edit_is))]
pub fn read(row: &Row) -> Option<Change<'_>>
    ensures { change_read result ≡ edit_at row.now 0 }
{
    if !texts_fit(row) {
        return None;
    }
    let tag = read_text(row, TAG);
    let second = read_text(row, SECOND);
    let index = read_word(row, INDEX) as usize;
    match read_word(row, EDIT) {
        5 => Some(Change::AddInput {
            target: tag,
            source: second,
            index,
        }),
        6 => Some(Change::RemoveInput { tag, index }),
        7 => Some(Change::RemoveComponent { tag }),
        8 => Some(Change::RenameComponent {
            old: tag,
            new: second,
        }),
        9 => Some(Change::SetParameter {
            tag,
            name: second,
            value: data(row)?,
        }),
        _ => adding(row),
    }
}

#[tactic(auto, using(crate::proofs::Laws::change_there))]
fn is_edit(row: &Row) -> bool
    ensures { result ≡ is_some (edit_at row.now 0) }
{
    read(row).is_some()
}

// Whether the bytes are whole rows, each an edit.
pub fn are_edits(s: &[u8]) -> bool
    ensures { result ≡ is_some (edits_of s.now) }
{
    let (rows, []) = s.as_chunks::<256>() else {
        return false;
    };
    rows.iter().all(is_edit)
}
