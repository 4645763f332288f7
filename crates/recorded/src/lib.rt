// What the programs share: the next line of a script; and of recorded answers the number that a word spells, and how many of a
// program's own answers agree with them.
#![tactic(auto)]

pub mod lines;

ghost use Rattle.std.specs.Prelude.{◌≡◌, ◌++◌, Some, true, false, IfSome, MatchOption, length, codes, decimal};
ghost use Rattle.std.specs.Str.Parse.{digits_value, without_leading_plus};
ghost use Rattle.recorded.specs.Count.{counted};
ghost use Rattle.recorded.specs.Number.{is_digit, spells};

use std::fmt;

// Whether a byte is a hexadecimal digit in lower case.
fn is_digit(byte: u8) -> bool
    ensures { result ≡ is_digit byte }
{
    matches!(byte, b'0'..=b'9' | b'a'..=b'f')
}

// Whether a word is 16 hexadecimal digits in lower case.
fn spells(word: &str) -> bool
    ensures { result ≡ spells word.now }
{
    // Kept: the length apart. The check names a goal by the text of its test: in one line, a wrong program with another length would be refused for a goal of another name, and not for what it answers.
    let whole = word.len() == 16;
    whole && word.bytes().all(is_digit)
}

// The number that 16 hexadecimal digits in lower case spell.
pub fn number(word: &str) -> Option<u64>
    ensures length { IfSome result (λ n. length word.now ≡ 16) }
    ensures found { MatchOption result (spells word.now ≡ false) (λ _. spells word.now ≡ true) }
    ensures value { IfSome result (λ n. n ≡ digits_value 16 (without_leading_plus word.now)) }
{
    u64::from_str_radix(word, 16).ok().filter(|_| spells(word))
}

// What became of a row: its answer is the recorded one, or another, or the row could not be read.
#[derive(Clone, Copy)]
pub enum Outcome {
    Agreed,
    Differed,
    Unread,
}

// How many rows there were, and what became of them.
#[derive(Clone, Copy, Default)]
pub struct Tally {
    pub rows: u64,
    pub agreed: u64,
    pub differed: u64,
    pub unread: u64,
}

impl Tally {
    // One row more.
    pub fn count(&mut self, outcome: Outcome)
        ensures { self.new ≡ counted self.old outcome }
    {
        self.rows = self.rows.saturating_add(1);
        match outcome {
            Outcome::Agreed => self.agreed = self.agreed.saturating_add(1),
            Outcome::Differed => self.differed = self.differed.saturating_add(1),
            Outcome::Unread => self.unread = self.unread.saturating_add(1),
        }
    }
}

impl fmt::Display for Tally {
    ghost output = { λ t. Some (codes "rows " ++ (decimal t.rows ++ (codes ", agreed " ++ (decimal t.agreed ++ (codes ", differed " ++ (decimal t.differed ++ (codes ", unread " ++ decimal t.unread))))))) };

    fn fmt<W: fmt::Write>(&self, f: &mut fmt::Formatter<W>) -> fmt::Result {
        let Tally {
            rows,
            agreed,
            differed,
            unread,
        } = *self;
        write!(
            f,
            "rows {rows}, agreed {agreed}, differed {differed}, unread {unread}"
        )
    }
}
