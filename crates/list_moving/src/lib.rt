// The list of one tag moved to another.
#![tactic(auto)]

ghost use Rattle.std.specs.Prelude.{◌≡◌, ◌≤◌};
ghost use Rattle.tag.specs.View.{bytes_of};
ghost use Rattle.list_moving.specs.Moving.{ListAt, without_list, Movable, ListMoved};

use held::find::find_list;
use model::implicit_model::{InputList, Model};
use tag::Tag;

// The list at a position is taken off: the last one takes its place. None is, where the model counts more lists than there is room for.
// Kept: one function for this and for removing's `take_entry` is no plainer, as is said there.
fn take_list(m: &mut Model, i: usize)
    requires { ListAt m.old i }
    ensures { m.old.list_count ≤ 128 → m.new ≡ without_list m.old i }
{
    if 128 < m.list_count {
        return;
    }
    let last = m.list_count - 1;
    // field by field: a row moved whole within its table would be C's `memmove`, which a host need not have
    m.lists[i] = InputList { ..m.lists[last] };
    m.list_count = last;
}

// The list of one tag is moved to another, over the leftover list that this one has. Without a list of the first nothing moves, and the leftover one is acquired.
pub fn move_list(m: &mut Model, t: Tag, u: Tag)
    ensures { Movable m.old t u → ListMoved m.old (bytes_of t) (bytes_of u) m.new }
{
    let Some(i) = find_list(m, t) else {
        return;
    };
    let list = InputList {
        tag: u,
        ..m.lists[i]
    };
    let Some(j) = find_list(m, u) else {
        m.lists[i] = list;
        return;
    };
    m.lists[j] = list;
    take_list(m, i);
}
