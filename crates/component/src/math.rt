// The operations on numbers of more than one step. Each step is rounded once, in the written order.
ghost use Rattle.std.specs.Prelude.{◌≡◌};
ghost use Rattle.std.specs.Float.Ieee.{neg};
ghost use Rattle.float.specs.Extrema.{maximum_number};
ghost use Rattle.geometry.specs.Operations.{◌⊕◌, ◌⊖◌, ◌⊗◌, ◌⊘◌};
ghost use Rattle.component.specs.Value.{two};

use crate::range::Range;
use float::extrema::max;

pub fn lerp(factor: f64, a: f64, b: f64) -> f64
    ensures { result ≡ a ⊕ factor ⊗ (b ⊖ a) }
{
    a + factor * (b - a)
}

pub fn remap(from: Range, to: Range, a: f64) -> f64
    ensures { result ≡ to.min ⊕ (a ⊖ from.min) ⊘ (from.max ⊖ from.min) ⊗ (to.max ⊖ to.min) }
{
    let normalized = (a - from.min) / (from.max - from.min);
    lerp(normalized, to.min, to.max)
}

// A wall of thickness t around the surface where a is 0.
pub fn thickness(t: f64, a: f64) -> f64
    ensures { result ≡ maximum_number (a ⊖ t ⊘ two) (neg (a ⊕ t ⊘ two)) }
{
    let half = t / 2.0;
    max(a - half, -(a + half))
}
