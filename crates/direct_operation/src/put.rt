// The rows of a new operation written into the bytes of a model.
ghost use Rattle.std.specs.Prelude.{◌≡◌, ◌≤◌, ◌<◌, length};
ghost use Rattle.tag.specs.View.{bytes_of};
ghost use Rattle.rows.specs.Rows.{places_of};
ghost use Rattle.direct_operation.specs.Put.{RowPut, RowFor, OperationPut};

use component::model_component::Component;
use direct_adding::put::put_more;
use direct_rows::put::put_list;
use finding::Table;
use layout::model::LIST_COUNT;
use model::implicit_model::InputList;
use rows::writing::write_number;
use tag::Tag;

// The row for the list of a new operation: over a leftover one, or after the others, where there is room.
// Kept: `adding_operation` chooses it on the record. One function for both would call closures, so it would have a `requires`, and no public one has; a trait of a store with laws for both is longer than these lines.
pub(crate) fn row_for(s: &[u8], t: Tag) -> Option<usize>
    ensures { RowFor s.now (bytes_of t) result }
{
    // Kept: tried as `Table::Lists.row_of(..).or_else(|| ..)`; the goal `returns` stayed open: the prover of rattle-kit-13f ended there with an error of its own, an index out of bounds.
    if let Some(j) = Table::Lists.row_of(s, t.as_bytes()) {
        return Some(j);
    }
    let n = Table::Lists.count(s);
    (n < 128).then_some(n)
}

// A list in the row j, which is one of those counted or the next one.
// Kept: the length of the bytes is asked of callers, here and below, since `add_listed_in` has tested it; asked again, these would have a way out that is never taken.
fn put_row(s: &mut [u8], j: usize, l: InputList)
    requires { (length s.old ≡ 27200) × ((j < 128) × (l.count ≤ 3)) }
    ensures { RowPut j (bytes_of l.tag) (places_of l.count l) s.old s.new }
{
    let k = Table::Lists.count(s);
    put_list(s, j, l);
    if k <= j {
        write_number(s, LIST_COUNT, j as u64 + 1);
    }
}

// An operation under the tag of its list l, which stands in the row j.
pub(crate) fn put_operation(s: &mut [u8], n: usize, j: usize, c: Component, l: InputList, d: Tag)
    requires { (length s.old ≡ 27200) × ((n < 64) × ((j < 128) × (l.count ≤ 3))) }
    ensures { OperationPut n j (bytes_of l.tag) c (places_of l.count l) (bytes_of d) s.old s.new }
{
    put_row(s, j, l);
    put_more(s, n, l.tag, c, d);
}
