// `rename_component` in the bytes of a model.
#![tactic(auto)]

ghost use Rattle.std.specs.Prelude.{◌≡◌, ◌<◌, false, IfSome};
ghost use Rattle.tag.specs.Tags.{overlong};
ghost use Rattle.tag.specs.View.{bytes_of};
ghost use Rattle.model.specs.Edit.{rename_component};
ghost use Rattle.direct_rows.specs.Took.{Makes};
ghost use Rattle.direct_renaming.specs.Renaming.{Renamable, ListRenamed};

use direct_swapping::swap_places;
use finding::Table;
use layout::model::{COMPONENT_SIZE, COMPONENTS, LIST_SIZE, LISTS};
use rows::writing::write_tag;
use standing::row_of_component;
use tag::Tag;

// The row of the component to be renamed; none where nothing is renamed here: also where a list was left under the new tag.
fn row_to_rename(s: &[u8], old: &[u8], new: &[u8]) -> Option<usize>
    requires { overlong new.now ≡ false }
    ensures { IfSome result (Renamable s.now old.now new.now) }
{
    let row = row_of_component(s, old)?;
    if Table::Components.row_of(s, new).is_some() || Table::Lists.row_of(s, new).is_some() {
        return None;
    }
    Some(row)
}

// The list in a row, where there is one, under another tag.
fn rename_list(s: &mut [u8], row: Option<usize>, t: Tag)
    requires { IfSome row (λ j. j < 128) }
    ensures { ListRenamed row (bytes_of t) s.old s.new }
{
    if let Some(j) = row {
        write_tag(s, LISTS + LIST_SIZE * j, t);
    }
}

// The tag that the component has then, where it is renamed. Its list is renamed with it.
pub fn rename_component_in(s: &mut [u8], old: &[u8], new: &[u8]) -> Option<Tag>
    ensures { Makes (rename_component old.now new.now) s.old s.new result }
{
    let t = Tag::try_from(new).ok()?;
    let i = row_to_rename(s, old, new)?;
    let row = Table::Lists.row_of(s, old);
    write_tag(s, COMPONENTS + COMPONENT_SIZE * i, t);
    rename_list(s, row, t);
    swap_places(s, old, Some(t));
    Some(t)
}
