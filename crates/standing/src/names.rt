// Tags in bytes, by a number each, their key: tags with unequal keys are unequal.
ghost use Rattle.std.specs.Prelude.{◌≡◌, true, ◌≤◌, ◌<◌, take};
ghost use Rattle.finding.specs.Rows.{counted, row_at};
ghost use Rattle.standing.specs.Names.{key_in, Keyed, Sought, Apart};

use finding::Table;
use layout::words::read_word;

// The key of the 32 bytes at a place. No sum wraps.
#[tactic(auto, unfolding(crate::specs::Names::key_in))]
pub(crate) fn key(s: &[u8], at: usize) -> u64
    requires { at < 0x8000 }
    ensures { result ≡ key_in s.now at }
{
    let a = read_word(s, at) % 0x2000_0000_0000_0000;
    let b = read_word(s, at + 8) % 0x0800_0000_0000_0000;
    let c = read_word(s, at + 16) % 0x0800_0000_0000_0000;
    let d = read_word(s, at + 24) % 0x0800_0000_0000_0000;
    a + 3 * b + 5 * c + 7 * d
}

// The keys of the tags in the rows of a table.
// Kept: memory is fixed, so the keys stand in an array with their count beside it.
#[derive(Clone, Copy)]
pub struct Keys {
    pub(crate) of: [u64; 128],
    pub(crate) count: usize,
    ghost few: { count ≤ 128 },
}

impl Keys {
    // Reads the keys of the rows that are counted.
    pub(crate) fn read(s: &[u8], table: Table) -> Keys
        ensures { (result.count ≡ counted table s.now) × Keyed s.now (row_at table) result.count result.of }
    {
        let mut of = [0u64; 128];
        let count = table.count(s);
        for i in 0..count {
            of[i] = key(s, table.start() + 8 + table.size() * i);
        }
        Keys { of, count }
    }

    // The keys of the rows that are counted.
    pub(crate) fn as_slice(&self) -> &[u64]
        ensures { result.now ≡ take self.now.count self.now.of }
    {
        &self.of[..self.count]
    }

    // The row of a key.
    pub(crate) fn row_of(&self, key: u64) -> Option<usize>
        ensures { Sought self.now.of self.now.count key result }
    {
        self.as_slice().iter().position(|k| *k == key)
    }

    // Whether no two are the same.
    pub(crate) fn are_apart(&self) -> bool
        ensures { result ≡ true → Apart self.now.of self.now.count }
    {
        // Kept: by `split_first` it would be a loop over what is left of the slice, and by `enumerate` the slice up to a row is still taken by its number.
        (0..self.count).all(|i| !self.of[..i].contains(&self.of[i]))
    }
}
