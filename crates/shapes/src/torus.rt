// A torus around the y axis, by its centre, radius and thickness.
ghost use Rattle.std.specs.Prelude.{◌≡◌};
ghost use Rattle.shapes.specs.Distance.{signed_root, to_torus};
ghost use Rattle.shapes.specs.Signed.{signed_like};

use float::root::root;
use geometry::vec3f::Vec3;

#[derive(Clone, Copy)]
pub struct Torus {
    pub centre: Vec3,
    pub r: f64,
    pub t: f64,
}

// r, with its sign turned where s is below 0.
#[tactic(auto, unfolding(crate::specs::Signed::signed_like))]
fn signed_like(s: f64, r: f64) -> f64
    ensures { result ≡ signed_like s r }
{
    if s < 0.0 { -r } else { r }
}

// The root of s; where s is below 0, minus the root of -s. One root for both, so that the machine need not guess the sign.
#[tactic(auto, using(crate::proofs::Signed::one_root))]
fn signed_root(s: f64) -> f64
    ensures { result ≡ signed_root s }
{
    signed_like(s, root(signed_like(s, s)))
}

impl Torus {
    pub fn new(centre: Vec3, r: f64, t: f64) -> Torus
        ensures { result ≡ record { centre = centre; r = r; t = t } }
    {
        Torus { centre, r, t }
    }

    // A torus around (x, y, z).
    pub fn at_coord(x: f64, y: f64, z: f64, r: f64, t: f64) -> Torus
        ensures { result ≡ record { centre = record { x = x; y = y; z = z }; r = r; t = t } }
    {
        Torus::new(Vec3::new(x, y, z), r, t)
    }

    // The distance from (x, y, z) to this torus: below 0 inside.
    // Kept: x, y, z apart, since the `eval` of the Rust takes them so.
    #[tactic(auto, unfolding(crate::specs::Distance::to_torus))]
    pub fn eval(self, x: f64, y: f64, z: f64) -> f64
        ensures { result ≡ to_torus self x y z }
    {
        let way = Vec3::new(x, y, z) - self.centre;
        let d = self.r - root(way.x * way.x + way.z * way.z);
        signed_root(d * d + way.y * way.y - self.t * self.t)
    }
}
