// The walk of `add_input`: from the source along its inputs, to the target.
#![tactic(auto)]

ghost use Rattle.tag.specs.View.{bytes_of};
ghost use Rattle.model.specs.View.{lists_of};
ghost use Rattle.walking.specs.Walking.{Joined, Walkable, Walks, Startable, Wires};

use held::find::find_list;
use model::implicit_model::Model;
use nodes::node_list::NodeList;
use tag::Tag;

// Why there is no wire: the walk met the target, or an unassigned place of the list at a row.
#[derive(Clone, Copy)]
pub enum Blocked {
    Target,
    Gap { row: usize, place: usize },
}

// The tag's list joins the line of rows, if there is one and it has not been in line. A tag without a list has no inputs, and need not wait.
fn join(line: &mut NodeList<128>, m: &Model, t: &Tag)
    ensures { Joined (lists_of m.now) (bytes_of t.now) line.old line.new }
{
    if let Some(row) = find_list(m, *t) {
        line.push(row);
    }
}

// From one row, to the row of the target. A list is scanned once, so that the walk ends on every model.
fn walk(m: &Model, target: usize, from: usize) -> Result<(), Blocked>
    ensures { Walkable m.now target from → Walks m.now target from result }
{
    let mut line = NodeList::new();
    line.push(from);
    let mut end = Ok(());
    let mut head = 0;
    // Kept: document 01 names this form, a loop left by its label; and the line grows while it is walked, so no iterator over it can drive the loop.
    'walk: while let Some(&row) = line.nodes().get(head) {
        if row == target {
            end = Err(Blocked::Target);
            break 'walk;
        }
        for (i, place) in m.lists[row].live_places().iter().enumerate() {
            let Some(t) = place else {
                end = Err(Blocked::Gap { row, place: i });
                break 'walk;
            };
            join(&mut line, m, t);
        }
        head += 1;
    }
    end
}

// From a tag, to the row of the target: a tag without a list has no inputs.
pub fn walk_from(m: &Model, target: usize, source: Tag) -> Result<(), Blocked>
    ensures { Startable m.now target → Wires m.now target (bytes_of source) result }
{
    let Some(from) = find_list(m, source) else {
        return Ok(());
    };
    walk(m, target, from)
}
