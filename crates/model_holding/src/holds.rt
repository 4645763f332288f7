// Whether bytes hold a model, by the tests that decoding makes, with no table filled. What is proved is that a yes is right; which model they hold, decode says.
// Kept: tests of a model's parts beside decode's readers of the same parts, since a test copies no table. Of models of 5, 20 and 60 components `standing::wired`, with these tests in it, takes 10, 35 and 134 thousand instructions, `decode` alone 141, 154 and 188 thousand.
ghost use Rattle.std.specs.Prelude.{◌≡◌, true, ◌+◌, ◌≤◌};
ghost use Rattle.rows.specs.Rows.{text_in, tag_in, place_in, rows_in, place_row};
ghost use Rattle.model_bytes.specs.ModelBytes.{entry_in, list_in, entry_row, list_row, model_in};
ghost use Rattle.model_holding.specs.Holds.{Held};

use layout::model::{
    COMPONENT, COMPONENT_COUNT, COMPONENT_SIZE, COMPONENTS, DEFAULT, LIST_COUNT, LIST_SIZE, LISTS,
    PLACE_COUNT, PLACE_SIZE, PLACES,
};
use layout::words::read_word;
use model_bytes::decode::is_headed;
use row_reading::{is_blank, read_component};

// Whether 32 bytes hold a tag of n bytes, and 0 after it.
// Kept: that the bytes are a model's, as a clause of each test below. A type of bytes within a model from `at` on would hold another width at each test, and be made anew for each part.
fn is_text(s: &[u8], at: usize, n: usize) -> bool
    requires { at + 32 ≤ 27200 }
    ensures { result ≡ true → Held (text_in n s.now at) }
{
    n <= 32 && is_blank(s, at + n, at + 32)
}

// Whether 40 bytes hold a tag.
fn is_tag(s: &[u8], at: usize) -> bool
    requires { at + 40 ≤ 27200 }
    ensures { result ≡ true → Held (tag_in s.now at) }
{
    is_text(s, at + 8, read_word(s, at) as usize)
}

// Whether 40 bytes hold a place: a tag, or unassigned.
fn is_place(s: &[u8], at: usize) -> bool
    requires { at + 40 ≤ 27200 }
    ensures { result ≡ true → Held (place_in s.now at) }
{
    match read_word(s, at) as usize {
        0 => is_blank(s, at + 8, at + 40),
        n => is_text(s, at + 8, n - 1),
    }
}

// Whether 88 bytes hold a row of the components.
fn is_entry(s: &[u8], at: usize) -> bool
    requires { at + 88 ≤ 27200 }
    ensures { result ≡ true → Held (entry_in s.now at) }
{
    is_tag(s, at) && read_component(s, at + COMPONENT).is_some()
}

// Whether the first n of a list's three places are places.
fn are_places(s: &[u8], at: usize, n: usize) -> bool
    requires { (n ≤ 3) × (at + 120 ≤ 27200) }
    ensures { result ≡ true → Held (rows_in (place_row s.now at) n) }
{
    (0..n).all(|i| is_place(s, at + PLACE_SIZE * i))
}

// Whether 168 bytes hold a row of the input lists.
#[tactic(auto, using(crate::proofs::Laws::list_checked))]
fn is_list(s: &[u8], at: usize) -> bool
    requires { at + 168 ≤ 27200 }
    ensures { result ≡ true → Held (list_in s.now at) }
{
    let n = read_word(s, at + PLACE_COUNT) as usize;
    is_tag(s, at)
        && n <= 3
        && is_blank(s, at + PLACES + PLACE_SIZE * n, at + LIST_SIZE)
        && are_places(s, at + PLACES, n)
}

// Whether the first n rows of the components are rows.
// Kept: one line for each table. A function over both would take, as a closure, the whole line that stands here.
fn are_entries(s: &[u8], n: usize) -> bool
    requires { n ≤ 64 }
    ensures { result ≡ true → Held (rows_in (entry_row s.now) n) }
{
    (0..n).all(|i| is_entry(s, COMPONENTS + COMPONENT_SIZE * i))
}

// Whether the first n rows of the input lists are rows.
fn are_lists(s: &[u8], n: usize) -> bool
    requires { n ≤ 128 }
    ensures { result ≡ true → Held (rows_in (list_row s.now) n) }
{
    (0..n).all(|i| is_list(s, LISTS + LIST_SIZE * i))
}

// Whether the bytes hold a model.
#[tactic(auto, using(model_bytes::proofs::Laws::Decoding::head, crate::proofs::Laws::model_holds))]
pub fn holds(bytes: &[u8]) -> bool
    ensures { result ≡ true → Held (model_in bytes.now) }
{
    is_headed(bytes)
        && is_place(bytes, DEFAULT)
        && are_entries(bytes, read_word(bytes, COMPONENT_COUNT) as usize)
        && are_lists(bytes, read_word(bytes, LIST_COUNT) as usize)
}
