// The rows of a model in bytes: a row found by its tag, the component in a row, and the tag in a place.
#![tactic(auto)]

ghost use Rattle.std.specs.Prelude.{◌≡◌, ◌<◌, MatchOption};
ghost use Rattle.component_layout.specs.Components.{component_read};
ghost use Rattle.finding.specs.Rows.{start, size, counted, row_at, component_row, RowSought, Tagged, Untagged};

use component::model_component::Component;
use component_layout::component_words::{component_from, words_at};
use layout::model::{
    COMPONENT, COMPONENT_COUNT, COMPONENT_SIZE, COMPONENTS, LIST_COUNT, LIST_SIZE, LISTS,
};
use layout::words::{read_text, read_word};

// A table of rows in the bytes of a model. Each row begins with its tag.
#[derive(Clone, Copy)]
pub enum Table {
    Components,
    Lists,
}

impl Table {
    // Where the first row begins.
    pub fn start(self) -> usize
        ensures { result ≡ start self }
    {
        match self {
            Table::Components => COMPONENTS,
            Table::Lists => LISTS,
        }
    }

    // The bytes of a row.
    pub fn size(self) -> usize
        ensures { result ≡ size self }
    {
        match self {
            Table::Components => COMPONENT_SIZE,
            Table::Lists => LIST_SIZE,
        }
    }

    // How many rows the bytes count, as far as the table goes.
    pub fn count(self, s: &[u8]) -> usize
        ensures { result ≡ counted self s.now }
    {
        match self {
            Table::Components => (read_word(s, COMPONENT_COUNT) as usize).min(64),
            Table::Lists => (read_word(s, LIST_COUNT) as usize).min(128),
        }
    }

    // The row with that tag.
    pub fn row_of(self, s: &[u8], t: &[u8]) -> Option<usize>
        ensures { RowSought s.now (row_at self) (counted self s.now) t.now result }
    {
        (0..self.count(s)).find(|i| read_text(s, self.start() + self.size() * *i) == t)
    }
}

// The component in a row.
#[tactic(auto, unfolding(crate::specs::Rows::component_row))]
pub fn component_in_row(s: &[u8], i: usize) -> Option<Component>
    ensures { i < 64 → component_read result ≡ component_row s.now i }
{
    if 64 <= i {
        return None;
    }
    component_from(words_at(s, COMPONENTS + COMPONENT + COMPONENT_SIZE * i))
}

// The tag in a place; none where the place is unassigned, or its bytes are more than a tag's or go past the end.
pub fn place_text(s: &[u8], at: usize) -> Option<&[u8]>
    ensures { MatchOption result (Untagged s.now at) (λ tag. Tagged s.now at tag.now) }
{
    let len = read_word(s, at) as usize;
    if len == 0 || 33 < len {
        return None;
    }
    s.get(at..)?.get(8..7 + len)
}
