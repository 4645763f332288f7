// Writers from byte `at` of a slice on. Where there is no room for the whole of what is written, nothing is changed. A tag's length past 32 counts as 32, and a list's count of places past 3 as 3.
// The functions that put, and those that they call, ask for the room by a clause.
// Kept: the widths 24, 32 and 48 as numbers: 24 and 48 stand in one writer each, beside the clause that names them; 32, the bytes of a tag, in `write_text` and in `put_place`.
ghost use Rattle.std.specs.Prelude.{◌≡◌, true, ◌+◌, ◌*◌, ◌-◌, ◌≤◌, min, length, map};
ghost use Rattle.std.proofs.Math.Option.{some};
ghost use Rattle.tag.specs.View.{bytes_of};
ghost use Rattle.model.specs.View.{place_of};
ghost use Rattle.layout.specs.Words.{word};
ghost use Rattle.rows.specs.Rows.{blank, text_in, tag_in, place_in, component_in, rows_in, place_row, places_in, places_of, three_in};
ghost use Rattle.rows.specs.Written.{Wrote, Writes, WroteWords};

use component::model_component::Component;
use component_layout::component_numbers::ComponentWords;
use layout::model::{PLACE_SIZE, TAG_SIZE};
use layout::writing::{has_room, write_word};
use model::implicit_model::{InputList, Place};
use tag::Tag;

// Kept: a line of its own over layout's `write_word`. That says which bytes stand there; this, what is read there where there is room, which the callers below go on from; `write_number`, the same of any byte.
fn put_word(s: &mut [u8], at: usize, x: u64)
    requires { at + 8 ≤ length s.old }
    ensures { Wrote (λ t. word t at) x at 8 s.old s.new }
{
    write_word(s, at, x);
}

// Writes a word.
pub fn write_number(s: &mut [u8], at: usize, x: u64)
    ensures { Writes (λ t. word t at) x at 8 s.old s.new }
{
    write_word(s, at, x);
}

// Writes n bytes that are 0.
// Kept: a function for std's `fill`, since what is read there afterwards would else be shown anew in the proof of each of the three that call it.
fn clear(s: &mut [u8], at: usize, n: usize)
    requires { at + n ≤ length s.old }
    ensures { Wrote (λ t. blank t at n) true at n s.old s.new }
{
    s[at..at + n].fill(0);
}

// Writes the bytes of a tag, and 0 after them, 32 in all.
fn write_text(s: &mut [u8], at: usize, b: &[u8])
    requires { (at + 32 ≤ length s.old) × (length b.now ≤ 32) }
    ensures { Wrote (λ u. text_in (length b.now) u at) (some b.now) at 32 s.old s.new }
{
    s[at..at + b.len()].copy_from_slice(b);
    clear(s, at + b.len(), 32 - b.len());
}

fn put_tag(s: &mut [u8], at: usize, t: Tag)
    requires { at + 40 ≤ length s.old }
    ensures { Wrote (λ u. tag_in u at) (some (bytes_of t)) at 40 s.old s.new }
{
    let b = t.as_bytes();
    put_word(s, at, b.len() as u64);
    write_text(s, at + 8, b);
}

// Writes a tag, 40 bytes.
// Kept: this and the writers below ask for room and then put. One that took what it puts as a closure would have the same line, `if_room(s, at, TAG_SIZE, |s| put_tag(s, at, t))`, and a clause for what the closure leaves.
pub fn write_tag(s: &mut [u8], at: usize, t: Tag)
    ensures { Writes (λ u. tag_in u at) (some (bytes_of t)) at 40 s.old s.new }
{
    if has_room(s, at, TAG_SIZE) {
        put_tag(s, at, t);
    }
}

fn put_place(s: &mut [u8], at: usize, p: Place)
    requires { at + 40 ≤ length s.old }
    ensures { Wrote (λ u. place_in u at) (some (place_of p)) at 40 s.old s.new }
{
    match p {
        Some(t) => {
            let b = t.as_bytes();
            put_word(s, at, b.len() as u64 + 1);
            write_text(s, at + 8, b);
        }
        None => {
            put_word(s, at, 0);
            clear(s, at + 8, 32);
        }
    }
}

// Writes a place of a list, 40 bytes: a tag, or unassigned.
pub fn write_place(s: &mut [u8], at: usize, p: Place)
    ensures { Writes (λ u. place_in u at) (some (place_of p)) at 40 s.old s.new }
{
    if has_room(s, at, PLACE_SIZE) {
        put_place(s, at, p);
    }
}

// Writes words, one after another.
// Kept: this and `put_places` are one loop by item and width. One over both would take the width and a writer of an item, with clauses for what each item leaves, in place of one line in each.
fn put_words(s: &mut [u8], at: usize, words: &[u64])
    requires { at + 8 * length words.now ≤ length s.old }
    ensures { WroteWords words.now (length words.now) at s.old s.new }
{
    for (i, x) in words.iter().enumerate() {
        put_word(s, at + 8 * i, *x);
    }
}

// Writes a component, 48 bytes: its kind and its numbers.
pub fn write_component(s: &mut [u8], at: usize, c: Component)
    ensures { Writes (λ u. component_in u at) (some c) at 48 s.old s.new }
{
    if has_room(s, at, 48) {
        let w = ComponentWords::from(c);
        put_words(s, at, &[w.kind, w.a, w.b, w.c, w.d, w.e]);
    }
}

// Writes places, one after another.
fn put_places(s: &mut [u8], at: usize, places: &[Place])
    requires { at + 40 * length places.now ≤ length s.old }
    ensures { Wrote (λ u. rows_in (place_row u at) (length places.now)) (some (map place_of places.now)) at (40 * length places.now) s.old s.new }
{
    for (i, p) in places.iter().enumerate() {
        put_place(s, at + PLACE_SIZE * i, *p);
    }
}

// Writes those places of a list that count, and 0 after them, 120 bytes in all.
fn put_list_places(s: &mut [u8], at: usize, l: InputList)
    requires { at + 120 ≤ length s.old }
    ensures { Wrote (λ u. places_in (min l.count 3) u at) (some (places_of l.count l)) at 120 s.old s.new }
{
    let places = l.live_places();
    let n = places.len();
    put_places(s, at, places);
    clear(s, at + PLACE_SIZE * n, PLACE_SIZE * (3 - n));
}

// Writes the places of a list, 120 bytes.
pub fn write_places(s: &mut [u8], at: usize, l: InputList)
    ensures { Writes (λ u. places_in (min l.count 3) u at) (some (places_of l.count l)) at 120 s.old s.new }
{
    if has_room(s, at, 3 * PLACE_SIZE) {
        put_list_places(s, at, l);
    }
}

// Writes three words, 24 bytes.
pub fn write_three(s: &mut [u8], at: usize, a: u64, b: u64, c: u64)
    ensures { Writes (λ u. three_in u at) (a, (b, c)) at 24 s.old s.new }
{
    if has_room(s, at, 24) {
        put_words(s, at, &[a, b, c]);
    }
}
