// What a host asks of a model: whether it is sound, and a form's order and its number at a point.
ghost use Rattle.opened.specs.Said.{held_in, Says};
ghost use Rattle.checking.specs.Check.{checked};
ghost use Rattle.compiling.specs.Order.{Compiles};
ghost use Rattle.evaluating.specs.Evaluate.{point_of};
ghost use Rattle.component_layout.specs.Components.{number};
ghost use Rattle.asking.specs.Form.{Evaluates};

use crate::point::point;

// Whether the bytes hold a model that 7 lets pass.
#[unsafe(no_mangle)]
pub extern "C" fn dw_check(model: &[u8], out: &mut [u8]) -> u32
    ensures { Says (checked (held_in model.now)) out.old out.new result }
{
    checking::dw_check(model, out)
}

// The order in which the target's components are computed, as tags, or a refusal.
#[unsafe(no_mangle)]
pub extern "C" fn dw_compile(model: &[u8], target: &[u8], order: &mut [u8], out: &mut [u8]) -> u32
    ensures { Compiles model.now target.now order.old order.new out.old out.new result }
{
    compiling::dw_compile(model, target, order, out)
}

// The number of the target's form at a point, or a refusal.
#[unsafe(no_mangle)]
pub extern "C" fn dw_evaluate_at(
    model: &[u8],
    target: &[u8],
    x: u64,
    y: u64,
    z: u64,
    out: &mut [u8],
) -> u32
    ensures { Evaluates model.now target.now (point_of (number x) (number y) (number z)) out.old out.new result }
{
    asking::form::dw_evaluate_at(model, target, point(x, y, z), out)
}
