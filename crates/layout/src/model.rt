// Where the parts of a model stand in its bytes, and how wide they are (docs/LAYOUT.md, "A model").
// Kept: a row's place is a sum of these names where it is asked for (`LISTS + PLACES + LIST_SIZE * j + PLACE_SIZE * p`). A function of the row's number would be public, and without a `requires` its contract would also have to say what it answers where the sum is past every address.

// The whole of a model.
pub const MODEL_SIZE: usize = 27200;

// The header: the layout's version, the two counts, and the default, a place.
pub const VERSION: usize = 0;

pub const COMPONENT_COUNT: usize = 8;

pub const LIST_COUNT: usize = 16;

pub const DEFAULT: usize = 24;

// The two tables, and a row of each.
pub const COMPONENTS: usize = 64;

pub const COMPONENT_SIZE: usize = 88;

pub const LISTS: usize = 5696;

pub const LIST_SIZE: usize = 168;

// In a row of either table its tag comes first. A tag and a place are of one width.
pub const TAG_SIZE: usize = 40;

pub const PLACE_SIZE: usize = 40;

// In a component's row: its kind and its numbers.
pub const COMPONENT: usize = 40;

// In a list's row: its count of places, and the places.
pub const PLACE_COUNT: usize = 40;

pub const PLACES: usize = 48;
