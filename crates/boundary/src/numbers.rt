// The root and the two distances, for a host that checks or measures them. They touch no model.
// Kept: numbers one by one. With Sphere, Torus and Vec3 as parameters the exports would make what these functions make, and be no plainer.
ghost use Rattle.std.specs.Prelude.{◌≡◌};
ghost use Rattle.float.specs.RootOf.{root_of};
ghost use Rattle.shapes.specs.Distance.{to_sphere, to_torus};

use shapes::sphere::Sphere;
use shapes::torus::Torus;

pub fn dw_root(x: f64) -> f64
    ensures { result ≡ root_of x }
{
    float::root::root(x)
}

pub fn dw_sphere(cx: f64, cy: f64, cz: f64, radius: f64, x: f64, y: f64, z: f64) -> f64
    ensures { result ≡ to_sphere (record { centre = record { x = cx; y = cy; z = cz }; radius = radius }) x y z }
{
    Sphere::at_coord(cx, cy, cz, radius).eval(x, y, z)
}

pub fn dw_torus(cx: f64, cy: f64, cz: f64, r: f64, t: f64, x: f64, y: f64, z: f64) -> f64
    ensures { result ≡ to_torus (record { centre = record { x = cx; y = cy; z = cz }; r = r; t = t }) x y z }
{
    Torus::at_coord(cx, cy, cz, r, t).eval(x, y, z)
}
