// `set_parameter` in the bytes of a model. A yes is right; a no changes nothing, and says nothing of the edit.
#![tactic(auto)]

ghost use Rattle.std.specs.Prelude.{is_some};
ghost use Rattle.model.specs.Edit.{set_parameter, done};
ghost use Rattle.direct_rows.specs.Took.{Takes};

use component::parameter::Data;
use finding::component_in_row;
use layout::model::{COMPONENT, COMPONENT_SIZE, COMPONENTS};
use rows::writing::write_component;
use standing::row_of_component;

// The parameter set; None where nothing is written.
pub fn set_parameter_in(s: &mut [u8], tag: &[u8], name: &[u8], data: Data) -> Option<()>
    ensures { Takes (set_parameter tag.now name.now «data») done s.old s.new (is_some result) }
{
    let i = row_of_component(s, tag)?;
    let c = component_in_row(s, i)?;
    let changed = parameter_setting::set_parameter(c, name, data).ok()?;
    write_component(s, COMPONENTS + COMPONENT + COMPONENT_SIZE * i, changed);
    Some(())
}
