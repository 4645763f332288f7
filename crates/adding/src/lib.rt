// Adding a component without inputs: `add_constant` and `add_function`; and one component more, which every adding ends with.
#![tactic(auto)]

ghost use Rattle.std.specs.Prelude.{◌≡◌, Bool, cond, Some, None};
ghost use Rattle.component.specs.declared.model_component.Component.{Component};
ghost use Rattle.model.specs.Edit.{add_constant, add_function};
ghost use Rattle.edit.specs.Meets.{Meets};
ghost use Rattle.adding.specs.Grown.{Grew, Plainly};

use component::model_component::Component;
use edit::Edited;
use held::find::check_free;
use model::implicit_model::{ComponentEntry, Model};
use model::model_error::{Answer, ModelError, Refusal};
use tag::Tag;

// One component more, and the default, where there is room. The tag is one that no component has.
pub fn add_more(m: &mut Model, tag: Tag, component: Component, default: Tag) -> Answer
    ensures { Grew m.old tag component default (record { answer = result; model = m.new }) }
{
    let row = m.component_count;
    if m.components.len() <= row {
        return Err(Refusal::plain(ModelError::ComponentsFull));
    }
    m.components[row] = ComponentEntry { tag, component };
    m.component_count = row + 1;
    m.default = Some(default);
    Ok(Some(tag))
}

// Adds a component that takes no inputs. `None` stands for a kind that the edit does not add, refused with 4.
fn add_plain(m: &mut Model, tag: &[u8], component: Option<Component>) -> Answer
    ensures { (c : Component) (fits : Bool) → component ≡ cond fits (Some c) None → Plainly tag.now c fits m.old (record { answer = result; model = m.new }) }
{
    validity::check(m)?;
    let tag = Tag::try_from(tag)?;
    let component = component.ok_or(Refusal::of(ModelError::ParameterDoesNotFit, tag))?;
    check_free(m, tag)?;
    add_more(m, tag, component, tag)
}

pub fn add_constant_to(m: &mut Model, tag: &[u8], value: f64) -> Answer
    ensures { Meets (add_constant tag.now value) m.old (record { answer = result; model = m.new }) }
{
    add_plain(m, tag, Some(Component::Constant(value)))
}

pub fn add_constant(m: Model, tag: &[u8], value: f64) -> Edited
    ensures { Meets (add_constant tag.now value) m result }
{
    let mut model = m;
    let answer = add_constant_to(&mut model, tag, value);
    Edited { answer, model }
}

// A sphere or a torus; another component is refused with 4.
pub fn add_function_to(m: &mut Model, tag: &[u8], c: Component) -> Answer
    ensures { Meets (add_function tag.now c) m.old (record { answer = result; model = m.new }) }
{
    add_plain(m, tag, c.is_function().then_some(c))
}

pub fn add_function(m: Model, tag: &[u8], c: Component) -> Edited
    ensures { Meets (add_function tag.now c) m result }
{
    let mut model = m;
    let answer = add_function_to(&mut model, tag, c);
    Edited { answer, model }
}
