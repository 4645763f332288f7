// The product of two words.
ghost use Rattle.std.specs.Prelude.{◌≡◌, ◌*◌, ◌/◌, ◌^◌};

// The upper word of u * v.
pub fn high_product(u: u64, v: u64) -> u64
    ensures { result ≡ u * v / 2 ^ 64 }
{
    (u128::from(u) * u128::from(v) >> 64) as u64
}
