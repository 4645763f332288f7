// Values as the words of the line protocol.
#![tactic(auto)]

pub mod kind;

ghost use Rattle.std.specs.Prelude.{Some};
ghost use Rattle.tag.specs.View.{bytes_of};
ghost use Rattle.word_writing.specs.Words.{bits_word, tag_word, place_word};

use model::implicit_model::Place;
use std::fmt;
use tag::Tag;

// The bits of a number: 16 hexadecimal digits.
#[derive(Clone, Copy)]
pub struct BitsWord(pub u64);

impl fmt::Display for BitsWord {
    ghost output = { λ w. Some (bits_word w.0) };

    fn fmt<W: fmt::Write>(&self, f: &mut fmt::Formatter<W>) -> fmt::Result {
        let BitsWord(bits) = *self;
        write!(f, "{bits:016x}")
    }
}

// A tag: two hexadecimal digits a byte, `.` for the empty one.
#[derive(Clone, Copy)]
pub struct TagWord(pub Tag);

impl fmt::Display for TagWord {
    ghost output = { λ w. Some (tag_word (bytes_of w.0)) };

    fn fmt<W: fmt::Write>(&self, f: &mut fmt::Formatter<W>) -> fmt::Result {
        let bytes = self.0.as_bytes();
        if bytes.is_empty() {
            return write!(f, ".");
        }
        for byte in bytes {
            write!(f, "{byte:02x}")?;
        }
        Ok(())
    }
}

// A place's tag, `-` for none.
#[derive(Clone, Copy)]
pub struct PlaceWord(pub Place);

impl fmt::Display for PlaceWord {
    ghost output = { λ w. Some (place_word w.0) };

    fn fmt<W: fmt::Write>(&self, f: &mut fmt::Formatter<W>) -> fmt::Result {
        match self.0 {
            Some(tag) => TagWord(tag).fmt(f),
            None => write!(f, "-"),
        }
    }
}
