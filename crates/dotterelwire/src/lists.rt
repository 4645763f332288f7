// What a host calls to begin a model in bytes, and to run a list of edits with the form asked after it.
ghost use Rattle.edit_lists.specs.Lists.{Begun, AskedAfter};
ghost use Rattle.evaluating.specs.Evaluate.{point_of};
ghost use Rattle.component_layout.specs.Components.{number};
ghost use Rattle.edit_rows.specs.EditRows.{edits_of};

use crate::point::point;

// Writes a new model; a slice of another length is 7 and is left alone.
#[unsafe(no_mangle)]
pub extern "C" fn dw_new(model: &mut [u8], out: &mut [u8]) -> u32
    ensures { Begun model.old model.new out.old out.new result }
{
    edit_lists::dw_new(model, out)
}

// The list run on a copy, and the form asked after it; the model after the list is stored only where the asking was answered.
#[unsafe(no_mangle)]
pub extern "C" fn dw_evaluate_after(
    model: &mut [u8],
    edits: &[u8],
    target: &[u8],
    x: u64,
    y: u64,
    z: u64,
    out: &mut [u8],
) -> u32
    ensures { AskedAfter (edits_of edits.now) target.now (point_of (number x) (number y) (number z)) model.old model.new out.old out.new result }
{
    edit_lists::dw_evaluate_after(model, edits, target, point(x, y, z), out)
}
