// `remove_component` in the bytes of a model.
#![tactic(auto)]

ghost use Rattle.std.specs.Prelude.{◌<◌, is_some};
ghost use Rattle.model.specs.Edit.{remove_component, done};
ghost use Rattle.direct_rows.specs.Took.{Takes};
ghost use Rattle.direct_removing.specs.Removing.{LastMoved};

use direct_rows::put::put_entry;
use direct_swapping::swap_places;
use finding::{Table, component_in_row};
use layout::model::{COMPONENT_COUNT, COMPONENT_SIZE, COMPONENTS};
use layout::words::read_text;
use model::implicit_model::ComponentEntry;
use rows::writing::write_number;
use standing::row_of_component;
use tag::tag_of;

// The last component moved into the row i, so that its room is used again. The row that it leaves stays as it was.
fn move_last(s: &mut [u8], i: usize, last: usize) -> Option<()>
    requires { (i < 64) × (last < 64) }
    ensures { LastMoved i last s.old s.new (is_some result) }
{
    if i == last {
        return Some(());
    }
    let component = component_in_row(s, last)?;
    let tag = tag_of(read_text(s, COMPONENTS + COMPONENT_SIZE * last));
    put_entry(s, i, ComponentEntry { tag, component });
    Some(())
}

// The component removed; None where nothing is written. The tag's own list stays, as a leftover one.
pub fn remove_component_in(s: &mut [u8], tag: &[u8]) -> Option<()>
    ensures { Takes (remove_component tag.now) done s.old s.new (is_some result) }
{
    let i = row_of_component(s, tag)?;
    let last = Table::Components.count(s) - 1;
    move_last(s, i, last)?;
    write_number(s, COMPONENT_COUNT, last as u64);
    swap_places(s, tag, None);
    Some(())
}
