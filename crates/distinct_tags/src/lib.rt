// Whether the tags of a table are distinct.
#![tactic(auto)]

ghost use Rattle.std.specs.Prelude.{◌≡◌, ◌+◌, ◌<◌, length, map, drop, not, is_some};
ghost use Rattle.std.specs.List.{position};
ghost use Rattle.tag.specs.Tags.{is};
ghost use Rattle.model.specs.Table.{distinct};

use held::find::position_of;
use model::implicit_model::Tagged;

// Whether no row behind the i-th has its tag.
fn is_alone<R: Tagged>(table: &[R], i: usize, row: &R) -> bool
    requires { i < length table.now }
    ensures { result ≡ not (is_some (position (λ r. is (R.tag_bytes r) (R.tag_bytes row.now)) (drop (i + 1) table.now))) }
{
    position_of(&table[i + 1..], row.tag()).is_none()
}

// Whether no two rows have one tag: each is looked for among the rows behind it.
pub fn distinct<R: Tagged>(table: &[R]) -> bool
    ensures { result ≡ distinct (map (λ r. (R.tag_bytes r, r)) table.now) }
{
    table
        .iter()
        .enumerate()
        .all(|(i, row)| is_alone(table, i, row))
}
