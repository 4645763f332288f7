// The least tag in byte order: of those without a component (12), and of those with a gap (13).
ghost use Rattle.std.specs.Prelude.{◌≡◌, true};
ghost use Rattle.std.specs.Option.{option_map};
ghost use Rattle.tag.specs.View.{bytes_of};
ghost use Rattle.model.specs.View.{passes};
ghost use Rattle.held.proofs.Laws.Rows.{no_list};
ghost use Rattle.nodes.specs.Nodes.{target};
ghost use Rattle.resolving.specs.Slots.{Resolved};
ghost use Rattle.lacking.specs.Least.{marked_at, component_at, gap_at, absents, least, gap_in, gap_of, LeastOf, AbsentShown, GapShown};

use model::implicit_model::{InputList, Model};
use nodes::Wire;
use resolving::slots::ListWires;
use tag::Tag;

// The tag of a list with a gap, and the index of its first.
#[derive(Clone, Copy)]
pub struct Gap {
    pub tag: Tag,
    pub index: usize,
}

// Whether the node that a wire leads to is marked.
fn is_marked(seen: &[bool; 192], wire: Wire) -> bool
    ensures { result ≡ marked_at seen.now (target wire) }
{
    wire.node().is_some_and(|x| seen[x])
}

// A wire leads to a component.
fn is_component(wire: Wire) -> bool
    ensures { result ≡ component_at wire }
{
    wire.component().is_some()
}

// A place is unassigned.
fn is_gap(wire: Wire) -> bool
    ensures { result ≡ gap_at wire }
{
    matches!(wire, Wire::Gap)
}

// The least tag without a component that a list shows: its own, or one in its places.
fn absent_in(l: &InputList, wires: &ListWires) -> Option<Tag>
    ensures { result ≡ least (absents l.now wires.now) }
{
    let own = (!is_component(wires.own)).then_some(l.tag);
    let placed = l
        .live_places()
        .iter()
        .zip(&wires.places)
        .filter(|(_, wire)| !is_component(**wire))
        .filter_map(|(place, _)| *place);
    own.into_iter().chain(placed).min()
}

// The least tag without a component that a marked list shows.
// Kept: the model, the wires of its lists and the marks are three parameters, here, below and in crate graph. In a struct each clause would name them a step further on (`self.now.found.now`), and there is no invariant to gain without asking more of callers.
pub fn least_absent(m: &Model, found: &[ListWires; 128], seen: &[bool; 192]) -> Option<Tag>
    ensures { passes m.now ≡ true → Resolved no_list m.now found.now → LeastOf (λ a. a) (AbsentShown no_list m.now found.now seen.now) (option_map bytes_of result) }
{
    m.live_lists()
        .iter()
        .zip(found)
        .filter(|(_, wires)| is_marked(seen, wires.own))
        .filter_map(|(l, wires)| absent_in(l, wires))
        .min()
}

// A list's tag with its first gap, if it has one.
fn gap_in(l: &InputList, wires: &ListWires) -> Option<Gap>
    ensures { result ≡ gap_in l.now wires.now }
{
    wires
        .places
        .iter()
        .position(|wire| is_gap(*wire))
        .map(|index| Gap { tag: l.tag, index })
}

// The least tag of a marked list with a gap, and the lowest index.
pub fn least_gap(m: &Model, found: &[ListWires; 128], seen: &[bool; 192]) -> Option<Gap>
    ensures { passes m.now ≡ true → Resolved no_list m.now found.now → LeastOf (λ g. g.0) (GapShown no_list m.now found.now seen.now) (option_map gap_of result) }
{
    m.live_lists()
        .iter()
        .zip(found)
        .filter(|(_, wires)| is_marked(seen, wires.own))
        .filter_map(|(l, wires)| gap_in(l, wires))
        .min_by_key(|gap| gap.tag)
}
