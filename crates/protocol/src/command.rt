// The commands, each with its arguments.
ghost use Rattle.std.specs.Prelude.{◌≡◌, ◌∷◌, [], take, IfSome};
ghost use Rattle.spelling.specs.Words.{words_of};
ghost use Rattle.protocol.specs.Names.{change_name, name_of};

use crate::arguments::{Inputs, Operator, data};
use component::model_component::Component;
use component::parameter::Data;
use geometry::vec3f::Vec3;
use spelling::line_words::Words;
use spelling::text::Text;

// The edits of a model.
// Kept: edit_rows' `Change` has the same nine cases over lent bytes. One generic enum would take the type of a text and that of the inputs, and protocol would rest on edit_rows for it.
#[derive(Clone, Copy)]
pub enum Change {
    AddConstant {
        tag: Text,
        value: f64,
    },
    AddFunction {
        tag: Text,
        function: Component,
    },
    AddOperation {
        tag: Text,
        operation: Component,
        inputs: Option<Inputs>,
    },
    AddComponent {
        tag: Text,
        component: Component,
    },
    AddInput {
        target: Text,
        source: Text,
        index: usize,
    },
    RemoveInput {
        tag: Text,
        index: usize,
    },
    RemoveComponent {
        tag: Text,
    },
    RenameComponent {
        old: Text,
        new: Text,
    },
    SetParameter {
        tag: Text,
        name: Text,
        value: Data,
    },
}

impl Change {
    // The edits that add a component, by name, the arguments read from the words behind.
    #[tactic(auto, using(crate::proofs::Names::name_from_reads))]
    fn read_adding(name: &[u8], words: &mut Words) -> Option<Change>
        ensures { IfSome result (λ edit. name.now ≡ change_name edit) }
    {
        match name {
            b"add_constant" => Some(Change::AddConstant {
                tag: words.text()?,
                value: words.float()?,
            }),
            b"add_function" => Some(Change::AddFunction {
                tag: words.text()?,
                function: words.component()?,
            }),
            b"add_operation" => Some(Change::AddOperation {
                tag: words.text()?,
                operation: words.component()?,
                inputs: Inputs::read_given(words)?,
            }),
            b"add_component" => Some(Change::AddComponent {
                tag: words.text()?,
                component: words.component()?,
            }),
            _ => None,
        }
    }

    // The edit of this name, its arguments read from the words behind.
    #[tactic(auto, using(crate::proofs::Names::name_from_reads))]
    fn read(name: &[u8], words: &mut Words) -> Option<Change>
        ensures { IfSome result (λ edit. name.now ≡ change_name edit) }
    {
        match name {
            b"add_input" => Some(Change::AddInput {
                target: words.text()?,
                source: words.text()?,
                index: words.decimal()?,
            }),
            b"remove_input" => Some(Change::RemoveInput {
                tag: words.text()?,
                index: words.decimal()?,
            }),
            b"remove_component" => Some(Change::RemoveComponent { tag: words.text()? }),
            b"rename_component" => Some(Change::RenameComponent {
                old: words.text()?,
                new: words.text()?,
            }),
            b"set_parameter" => Some(Change::SetParameter {
                tag: words.text()?,
                name: words.text()?,
                value: data(words)?,
            }),
            _ => Change::read_adding(name, words),
        }
    }
}

// What is asked of a model and changes none.
#[derive(Clone, Copy)]
pub enum Question {
    Compile { target: Text },
    EvaluateAt { target: Text, at: Vec3 },
    Dump,
    Operate(Operator),
}

// The record of `load` is read on its own, from the words behind the command's name.
#[derive(Clone, Copy)]
pub enum Command<'a> {
    New,
    Load(Words<'a>),
    Change(Change),
    Ask(Question),
}

impl<'a> Command<'a> {
    // The command of this name, its arguments read from the words behind.
    #[tactic(auto, using(crate::proofs::Names::name_from_reads))]
    fn read(name: &[u8], words: &mut Words<'a>) -> Option<Command<'a>>
        ensures { IfSome result (λ command. name.now ≡ name_of command) }
    {
        match name {
            b"new" => Some(Command::New),
            b"load" => Some(Command::Load(*words)),
            b"compile" => Some(Command::Ask(Question::Compile {
                target: words.text()?,
            })),
            b"evaluate_at" => Some(Command::Ask(Question::EvaluateAt {
                target: words.text()?,
                at: words.vec3()?,
            })),
            b"dump" => Some(Command::Ask(Question::Dump)),
            b"vec3" => Some(Command::Ask(Question::Operate(Operator::read(words)?))),
            _ => Some(Command::Change(Change::read(name, words)?)),
        }
    }

    // The command that a line is, if it is one.
    pub fn parse(line: &'a [u8]) -> Option<Command<'a>>
        ensures { IfSome result (λ command. take 1 (words_of line.now) ≡ name_of command ∷ []) }
    {
        let mut words = Words::of(line);
        let command = Command::read(words.next()?, &mut words)?;
        match (&command, words.next()) {
            (Command::Load(_), _) | (_, None) => Some(command),
            _ => None,
        }
    }
}
