// A line run on a model, and its answer.
use asking_commands::asked;
use asking_commands::reply::Reply;
use edit_commands::edited;
use model::implicit_model::Model;
use protocol::command::Command;
use record::loading::load;

// A line run on a model. One that is no command leaves it as it is.
pub fn answer<'a>(model: &'a mut Model, line: &[u8]) -> Reply<'a> {
    match Command::parse(line) {
        Some(Command::New) => {
            *model = held::reading::new();
            Reply::Done
        }
        Some(Command::Load(words)) => match load(words) {
            Some(read) => {
                *model = read;
                Reply::Done
            }
            None => Reply::NoCommand,
        },
        Some(Command::Change(change)) => Reply::from(edited(model, &change)),
        Some(Command::Ask(question)) => asked(model, &question),
        None => Reply::NoCommand,
    }
}
