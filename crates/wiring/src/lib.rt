// Wiring: `add_input`.
#![tactic(auto)]

ghost use Rattle.tag.specs.View.{bytes_of};
ghost use Rattle.model.specs.Edit.{add_input};
ghost use Rattle.edit.specs.Meets.{Meets};
ghost use Rattle.wiring.specs.Wiring.{Held};

use edit::Edited;
use held::find::{held_component, held_list};
use model::implicit_model::Model;
use model::model_error::{Answer, ModelError, Refusal};
use tag::Tag;
use walking::{Blocked, walk_from};

// The wire, where both tags are held: the target has a list with that place, and the walk from the source meets neither the target nor a gap.
fn wire(m: &mut Model, target: Tag, source: Tag, index: usize) -> Answer
    requires { Held m.old target source index }
    ensures { Meets (add_input (bytes_of target) (bytes_of source) index) m.old (record { answer = result; model = m.new }) }
{
    let row = held_list(m, target)?;
    if m.lists[row].live_places().len() <= index {
        return Err(Refusal::at(ModelError::InputIndexOutOfRange, target, index));
    }
    match walk_from(m, row, source) {
        Ok(()) => placing::place(m, row, index, Some(source)),
        Err(Blocked::Target) => Err(Refusal::of(ModelError::CyclicDependency, target)),
        Err(Blocked::Gap { row: gap, place }) => Err(Refusal::at(
            ModelError::MissingInput,
            m.lists[gap].tag,
            place,
        )),
    }
}

pub fn add_input_to(m: &mut Model, target: &[u8], source: &[u8], index: usize) -> Answer
    ensures { Meets (add_input target.now source.now index) m.old (record { answer = result; model = m.new }) }
{
    validity::check(m)?;
    let target = Tag::try_from(target)?;
    let source = Tag::try_from(source)?;
    held_component(m, target)?;
    held_component(m, source)?;
    wire(m, target, source, index)
}

pub fn add_input(m: Model, target: &[u8], source: &[u8], index: usize) -> Edited
    ensures { Meets (add_input target.now source.now index) m result }
{
    let mut model = m;
    let answer = add_input_to(&mut model, target, source, index);
    Edited { answer, model }
}
