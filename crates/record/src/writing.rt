// A model written as a record, both tables in ascending tag order.
ghost use Rattle.std.specs.Prelude.{Some};
ghost use Rattle.std.specs.Iterator.{at_most};
ghost use Rattle.record.specs.Text.{list_words};

use model::implicit_model::{InputList, Model, Tagged};
use std::fmt;
use tag::Tag;
use word_writing::kind::ComponentWords;
use word_writing::{PlaceWord, TagWord};

// The rows of a table in ascending order of their tags.
// Kept: no copy of each table and `sort_unstable_by_key`. Any model may be in a `Record`, and of rows with one tag this writes the first alone; a sort would write them all, in an order that its clauses leave open. What is printed stays as it is.
#[derive(Drop)]
struct Ascending<'a, R> {
    rows: &'a [R],
    last: Option<Tag>,
    left: usize,
}

impl<'a, R: Tagged> Ascending<'a, R> {
    fn of(rows: &'a [R]) -> Self {
        Ascending {
            rows,
            last: None,
            left: rows.len(),
        }
    }

    // The row with the least tag behind the last one.
    fn least(&self) -> Option<&'a R> {
        self.rows
            .iter()
            .filter(|row| self.last.is_none_or(|last| last < *row.tag()))
            .min_by_key(|row| *row.tag())
    }
}

impl<'a, R: Tagged> Iterator for Ascending<'a, R> {
    type Item = &'a R;

    ghost remaining = { λ rows. at_most rows.left };

    fn next(&mut self) -> Option<&'a R> {
        if self.left == 0 {
            return None;
        }
        self.left -= 1;
        let row = self.least()?;
        self.last = Some(*row.tag());
        Some(row)
    }
}

// A list's tag, how many places it has, and the places.
#[derive(Clone, Copy)]
struct ListWords<'a>(&'a InputList);

impl fmt::Display for ListWords<'_> {
    ghost output = { λ w. Some (list_words w.0.now) };

    fn fmt<W: fmt::Write>(&self, f: &mut fmt::Formatter<W>) -> fmt::Result {
        let places = self.0.live_places();
        write!(f, "{} {}", TagWord(self.0.tag), places.len())?;
        for place in places {
            write!(f, " {}", PlaceWord(*place))?;
        }
        Ok(())
    }
}

// The record of a model. It states no output: nothing says yet that the rows of `Ascending` are a table in the order of its tags.
#[derive(Clone, Copy)]
pub struct Record<'a>(pub &'a Model);

impl fmt::Display for Record<'_> {
    fn fmt<W: fmt::Write>(&self, f: &mut fmt::Formatter<W>) -> fmt::Result {
        let model = self.0;
        let components = model.live_components();
        let lists = model.live_lists();
        write!(
            f,
            "default {} components {}",
            PlaceWord(model.default),
            components.len()
        )?;
        for entry in Ascending::of(components) {
            write!(
                f,
                " {} {}",
                TagWord(entry.tag),
                ComponentWords(entry.component)
            )?;
        }
        write!(f, " lists {}", lists.len())?;
        for list in Ascending::of(lists) {
            write!(f, " {}", ListWords(list))?;
        }
        Ok(())
    }
}
