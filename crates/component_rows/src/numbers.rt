// The numbers that are asked, and the ranges of Remap over them.
use component::range::Range;

const NUMBERS: [u64; 17] = [
    0x0000_0000_0000_0000, // 0
    0x8000_0000_0000_0000, // -0
    0x3ff0_0000_0000_0000, // 1
    0xbff0_0000_0000_0000, // -1
    0x4000_0000_0000_0000, // 2
    0xc000_0000_0000_0000, // -2
    0x3fb9_9999_9999_999a, // 0.1
    0x3fd0_0000_0000_0000, // 0.25
    0x3cb0_0000_0000_0000, // 2^-52
    0x3ca0_0000_0000_0000, // 2^-53
    0x0000_0000_0000_0001, // the smallest subnormal number
    0x000f_ffff_ffff_ffff, // the largest subnormal number
    0x0010_0000_0000_0000, // the smallest normal number
    0x7fef_ffff_ffff_ffff, // the largest normal number
    0x7ff0_0000_0000_0000, // infinity
    0xfff0_0000_0000_0000, // -infinity
    0x7ff8_0000_0000_0000, // NaN
];

// The positions of each range's ends among the numbers.
const RANGES: [(usize, usize); 12] = [
    (0, 2),
    (3, 4),
    (6, 7),
    (5, 6),
    (9, 8),
    (4, 0),
    (10, 12),
    (11, 13),
    (1, 0),
    (2, 2),
    (15, 14),
    (16, 7),
];

// The number at a position, counted round the table.
pub fn number(i: usize) -> f64 {
    float::bits::float_of(NUMBERS[i % 17])
}

// The range at a position, counted round the table.
pub fn range(i: usize) -> Range {
    let (min, max) = RANGES[i % 12];
    Range::new(number(min), number(max))
}
