// The form's number at a point, from the bytes.
ghost use Rattle.std.specs.Prelude.{IfSome};
ghost use Rattle.direct.specs.Evaluate.{EvaluatesIn};

use crate::along::number_along;
use crate::line::line_of;
use float::bits::bits_of;
use geometry::vec3f::Vec3;
use standing::wired;

// The bits of the target's number at a point, where the bytes tell it.
pub fn evaluate_in(s: &[u8], target: &[u8], p: Vec3) -> Option<u64>
    ensures { IfSome result (EvaluatesIn s.now target.now p) }
{
    let standing = wired(s)?;
    let t = standing.row_of(target)?;
    let line = line_of(&standing.wires.0, t);
    let number = number_along(&standing, line.as_slice(), t, p)?;
    Some(bits_of(number))
}
