// The answers of the line protocol.
ghost use Rattle.std.specs.Prelude.{◌≡◌, Some};
ghost use Rattle.std.proofs.Math.ListN.{get_elem?};
ghost use Rattle.tag.specs.View.{bytes_of};
ghost use Rattle.model.specs.View.{view};
ghost use Rattle.asking_commands.specs.Answers.{ended, tag_of_row, order_words, reply_text};

use geometry::vec3f::Vec3;
use graph::computation_graph::Graph;
use model::implicit_model::Model;
use model::model_error::{Answer, Refusal};
use record::writing::Record;
use std::fmt;
use tag::Tag;
use word_writing::kind::Vec3Words;
use word_writing::{BitsWord, TagWord};

// What a line is answered: it is done, maybe with what was asked, or refused with a tag and an index, or no command.
#[derive(Clone, Copy)]
pub enum Reply<'a> {
    Done,
    Made(Tag),
    Order(Order<'a>),
    Number(u64),
    Vector(Vec3),
    Written(Record<'a>),
    Refused(Refusal),
    NoCommand,
}

// How an edit ends.
impl From<Answer> for Reply<'_> {
    ghost from_gives = { λ answer reply. reply ≡ ended answer };

    fn from(answer: Answer) -> Self {
        match answer {
            Ok(None) => Reply::Done,
            Ok(Some(tag)) => Reply::Made(tag),
            Err(refusal) => Reply::Refused(refusal),
        }
    }
}

// A model, and the graph of one of its tags.
#[derive(Clone, Copy)]
pub struct Order<'a> {
    pub model: &'a Model,
    pub graph: Graph,
}

// The tag at a position of the component table, the empty one where there is no row.
fn tag_at(model: &Model, position: usize) -> Tag
    ensures { bytes_of result ≡ tag_of_row (get_elem? (view model.now).components position) }
{
    held::reading::component_at(model, position).map_or(Tag::default(), |row| row.tag)
}

// How many there are, and their tags.
impl fmt::Display for Order<'_> {
    ghost output = { λ o. Some (order_words o) };

    fn fmt<W: fmt::Write>(&self, f: &mut fmt::Formatter<W>) -> fmt::Result {
        let graph = &self.graph;
        write!(f, "{}", graph.count)?;
        // Kept: tried, with `graph.positions()` the goal `returns-clause-writes` stays open: it needs `length order ≡ 64`, which neither the clause of `positions` nor a field of the `&` argument says.
        for position in &graph.order[..graph.count.min(64)] {
            write!(f, " {}", TagWord(tag_at(self.model, *position)))?;
        }
        Ok(())
    }
}

impl fmt::Display for Reply<'_> {
    ghost output = { reply_text };

    fn fmt<W: fmt::Write>(&self, f: &mut fmt::Formatter<W>) -> fmt::Result {
        match self {
            Reply::Done => write!(f, "ok"),
            Reply::Made(tag) => write!(f, "ok {}", TagWord(*tag)),
            Reply::Order(order) => write!(f, "ok {order}"),
            Reply::Number(bits) => write!(f, "ok {}", BitsWord(*bits)),
            Reply::Vector(vector) => write!(f, "ok {}", Vec3Words(*vector)),
            Reply::Written(record) => write!(f, "ok {record}"),
            Reply::Refused(Refusal { error, tag, index }) => {
                write!(f, "refused {} {} {index}", u32::from(*error), TagWord(*tag))
            }
            Reply::NoCommand => write!(f, "error no command"),
        }
    }
}
