// A point as a host hands it over.
ghost use Rattle.std.specs.Prelude.{◌≡◌};
ghost use Rattle.evaluating.specs.Evaluate.{point_of};
ghost use Rattle.component_layout.specs.Components.{number};

use float::bits::float_of;
use geometry::vec3f::Vec3;

// The point of three numbers, each as its bits.
pub(crate) fn point(x: u64, y: u64, z: u64) -> Vec3
    ensures { result ≡ point_of (number x) (number y) (number z) }
{
    Vec3 {
        x: float_of(x),
        y: float_of(y),
        z: float_of(z),
    }
}
