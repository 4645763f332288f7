// The commands that change no model, run on one: compile, evaluate_at, dump and the operators on vectors.
#![tactic(auto)]

pub mod reply;

use crate::reply::{Order, Reply};
use float::bits::bits_of;
use geometry::vec3f::Vec3;
use model::implicit_model::Model;
use model::model_error::Refusal;
use protocol::arguments::Operator;
use protocol::command::Question;
use record::writing::Record;

fn compile<'a>(model: &'a Model, target: &[u8]) -> Result<Reply<'a>, Refusal> {
    let graph = graph::computation_graph::compile(model, target)?;
    Ok(Reply::Order(Order { model, graph }))
}

fn evaluate_at<'a>(model: &Model, target: &[u8], at: Vec3) -> Result<Reply<'a>, Refusal> {
    let bits = evaluating::evaluate::evaluate_at(model, target, at)?;
    Ok(Reply::Number(bits))
}

// A model that is not valid is not written.
fn dump(model: &Model) -> Result<Reply<'_>, Refusal> {
    validity::check(model)?;
    Ok(Reply::Written(Record(model)))
}

fn operate<'a>(operator: Operator) -> Reply<'a> {
    match operator {
        Operator::Add(a, b) => Reply::Vector(a + b),
        Operator::Subtract(a, b) => Reply::Vector(a - b),
        Operator::Dot(a, b) => Reply::Number(bits_of(a.dot(b))),
        Operator::Scale(a, by) => Reply::Vector(a.scale(by)),
    }
}

fn answered<'a>(model: &'a Model, question: &Question) -> Result<Reply<'a>, Refusal> {
    match question {
        Question::Compile { target } => compile(model, target.as_slice()),
        Question::EvaluateAt { target, at } => evaluate_at(model, target.as_slice(), *at),
        Question::Dump => dump(model),
        Question::Operate(operator) => Ok(operate(*operator)),
    }
}

// What a model answers.
pub fn asked<'a>(model: &'a Model, question: &Question) -> Reply<'a> {
    // Kept: tried, `unwrap_or_else` is refused, with `Reply::Refused` and with a closure, since the result of the function handed on names a lifetime that neither its argument nor what it captures does.
    match answered(model, question) {
        Ok(reply) => reply,
        Err(refusal) => Reply::Refused(refusal),
    }
}
