// Reading a model from bytes: what stands at byte `at`, then rows, then the model. Each reader answers None where what it looks for does not stand there.
ghost use Rattle.std.specs.Prelude.{◌≡◌, ◌+◌, ◌≤◌, ◌<◌, ℕ, length, take, drop, get_or, Option, Some, None, MatchOption};
ghost use Rattle.tag.specs.View.{bytes_of, tag_fits};
ghost use Rattle.model.specs.View.{place_of, place_fits, component_of, entry_fits, list_of, list_fits, rows};
ghost use Rattle.rows.specs.Rows.{text_in, tag_in, place_in, rows_in, place_row};
ghost use Rattle.model_bytes.specs.ModelBytes.{entry_in, list_in, headed, entry_row, list_row};
ghost use Rattle.model_bytes.specs.Steps.{Read, all_fit};
ghost use Rattle.model_bytes.specs.Calls.{Decodes};

use layout::model::{
    COMPONENT, COMPONENT_COUNT, COMPONENT_SIZE, COMPONENTS, DEFAULT, LIST_COUNT, LIST_SIZE, LISTS,
    MODEL_SIZE, PLACE_COUNT, PLACE_SIZE, PLACES, VERSION,
};
use layout::words::read_word;
use model::implicit_model::{ComponentEntry, InputList, Model, Place};
use row_reading::{is_blank, read_component};
use tag::Tag;

// The tag of n bytes in 32 bytes.
// Kept: the room that a reader needs, as a clause of each. A type of bytes with room from `at` on would hold another room at each width (32, 40, 88, 120, 168), and be made anew for each part.
#[tactic(auto, using(crate::proofs::Laws::Reading::text_unread, crate::proofs::Laws::Reading::text_read), unfolding(rows::specs::Rows::text_in))]
fn read_text(s: &[u8], at: usize, n: usize) -> Option<Tag>
    requires { at + 32 ≤ length s.now }
    ensures { Read bytes_of tag_fits (text_in n s.now at) result }
{
    if 32 < n || !is_blank(s, at + n, at + 32) {
        return None;
    }
    let bytes = *s[at..].first_chunk()?;
    Some(Tag { bytes, len: n })
}

fn read_tag(s: &[u8], at: usize) -> Option<Tag>
    requires { at + 40 ≤ length s.now }
    ensures { Read bytes_of tag_fits (tag_in s.now at) result }
{
    read_text(s, at + 8, read_word(s, at) as usize)
}

fn read_place(s: &[u8], at: usize) -> Option<Place>
    requires { at + 40 ≤ length s.now }
    ensures { Read place_of place_fits (place_in s.now at) result }
{
    let n = read_word(s, at) as usize;
    if n == 0 {
        return is_blank(s, at + 8, at + 40).then_some(None);
    }
    let tag = read_text(s, at + 8, n - 1)?;
    Some(Some(tag))
}

fn read_entry(s: &[u8], at: usize) -> Option<ComponentEntry>
    requires { at + 88 ≤ length s.now }
    ensures { Read component_of entry_fits (entry_in s.now at) result }
{
    let tag = read_tag(s, at)?;
    let component = read_component(s, at + COMPONENT)?;
    Some(ComponentEntry { tag, component })
}

// A table of N rows: the first n as they are read, the others unused.
fn read_rows<T: Copy, const N: usize, F: Fn(usize) -> Option<T>>(
    unused: T,
    n: usize,
    read: F,
) -> Option<[T; N]>
    requires { (n ≤ N) × ((i : ℕ) → i < n → F.pre read i) }
    ensures { MatchOption result ((i : ℕ) × (o : Option T) × (i < n) × (o ≡ None) × F.post read i o) (λ table. (length table ≡ N) × ((i : ℕ) → i < n → F.post read i (Some (get_or table i unused)))) }
{
    let mut table = [unused; N];
    for i in 0..n {
        table[i] = read(i)?;
    }
    Some(table)
}

// The first n of a list's three places.
fn read_places(s: &[u8], at: usize, n: usize) -> Option<[Place; 3]>
    requires { (n ≤ 3) × (at + 120 ≤ length s.now) }
    ensures { Read (rows place_of n) (all_fit place_fits n) (rows_in (place_row s.now at) n) result }
{
    read_rows(None, n, |i| read_place(s, at + PLACE_SIZE * i))
}

fn read_list(s: &[u8], at: usize) -> Option<InputList>
    requires { at + 168 ≤ length s.now }
    ensures { Read list_of list_fits (list_in s.now at) result }
{
    let tag = read_tag(s, at)?;
    let count = read_word(s, at + PLACE_COUNT) as usize;
    if 3 < count || !is_blank(s, at + PLACES + PLACE_SIZE * count, at + LIST_SIZE) {
        return None;
    }
    let places = read_places(s, at + PLACES, count)?;
    Some(InputList { tag, count, places })
}

// The first n components.
fn read_components(s: &[u8], n: usize) -> Option<[ComponentEntry; 64]>
    requires { (n ≤ 64) × (length s.now ≡ 27200) }
    ensures { Read (rows component_of n) (all_fit entry_fits n) (rows_in (entry_row s.now) n) result }
{
    read_rows(
        ComponentEntry::default(),
        n,
        |i| read_entry(s, COMPONENTS + COMPONENT_SIZE * i),
    )
}

// The first n input lists.
fn read_lists(s: &[u8], n: usize) -> Option<[InputList; 128]>
    requires { (n ≤ 128) × (length s.now ≡ 27200) }
    ensures { Read (rows list_of n) (all_fit list_fits n) (rows_in (list_row s.now) n) result }
{
    read_rows(
        InputList::default(),
        n,
        |i| read_list(s, LISTS + LIST_SIZE * i),
    )
}

// Whether the length, the version and the counts are a model's.
#[tactic(auto, unfolding(crate::specs::ModelBytes::headed))]
pub fn is_headed(s: &[u8]) -> bool
    ensures { result ≡ headed s.now }
{
    s.len() == MODEL_SIZE
        && read_word(s, VERSION) == 1
        && read_word(s, COMPONENT_COUNT) <= 64
        && read_word(s, LIST_COUNT) <= 128
}

// The model that the bytes hold.
pub fn decode(bytes: &[u8]) -> Option<Model>
    ensures { Decodes bytes.now result }
{
    if !is_headed(bytes) {
        return None;
    }
    let component_count = read_word(bytes, COMPONENT_COUNT) as usize;
    let list_count = read_word(bytes, LIST_COUNT) as usize;
    let default = read_place(bytes, DEFAULT)?;
    let components = read_components(bytes, component_count)?;
    let lists = read_lists(bytes, list_count)?;
    Some(Model {
        components,
        component_count,
        lists,
        list_count,
        default,
    })
}
