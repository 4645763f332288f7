// A parameter set: `set_parameter`.
#![tactic(auto)]

ghost use Rattle.model.specs.Edit.{set_parameter};
ghost use Rattle.edit.specs.Meets.{Meets};

use component::parameter::Data;
use edit::Edited;
use held::find::held_component;
use model::implicit_model::Model;
use model::model_error::{Answer, Refusal};
use tag::Tag;

pub fn set_parameter_in(m: &mut Model, tag: &[u8], name: &[u8], data: Data) -> Answer
    ensures { Meets (set_parameter tag.now name.now «data») m.old (record { answer = result; model = m.new }) }
{
    validity::check(m)?;
    let tag = Tag::try_from(tag)?;
    let i = held_component(m, tag)?;
    let set = parameter_setting::set_parameter(m.components[i].component, name, data);
    let component = set.map_err(|e| Refusal::of(e.into(), tag))?;
    m.components[i].component = component;
    Ok(None)
}

pub fn set_parameter(m: Model, tag: &[u8], name: &[u8], data: Data) -> Edited
    ensures { Meets (set_parameter tag.now name.now «data») m result }
{
    let mut model = m;
    let answer = set_parameter_in(&mut model, tag, name, data);
    Edited { answer, model }
}
