// A sphere, by its centre and radius.
ghost use Rattle.std.specs.Prelude.{◌≡◌};
ghost use Rattle.shapes.specs.Distance.{to_sphere};

use geometry::vec3f::Vec3;

#[derive(Clone, Copy)]
pub struct Sphere {
    pub centre: Vec3,
    pub radius: f64,
}

impl Sphere {
    pub fn new(centre: Vec3, radius: f64) -> Sphere
        ensures { result ≡ record { centre = centre; radius = radius } }
    {
        Sphere { centre, radius }
    }

    // A sphere around (x, y, z).
    pub fn at_coord(x: f64, y: f64, z: f64, radius: f64) -> Sphere
        ensures { result ≡ record { centre = record { x = x; y = y; z = z }; radius = radius } }
    {
        Sphere::new(Vec3::new(x, y, z), radius)
    }

    // The distance from (x, y, z) to this sphere: below 0 inside.
    // Kept: x, y, z apart, since the `eval` of the Rust takes them so.
    #[tactic(auto, unfolding(crate::specs::Distance::to_sphere))]
    pub fn eval(self, x: f64, y: f64, z: f64) -> f64
        ensures { result ≡ to_sphere self x y z }
    {
        self.centre.distance_to_coord(x, y, z) - self.radius
    }
}
