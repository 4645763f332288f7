// From the record of a model to node numbers. A component's node is its position; a list whose tag has no component is 64 and on.
ghost use Rattle.std.specs.Prelude.{◌≡◌, true};
ghost use Rattle.tag.specs.View.{bytes_of};
ghost use Rattle.model.specs.View.{place_of, rows, passes};
ghost use Rattle.held.proofs.Laws.Rows.{no_list};
ghost use Rattle.nodes.specs.Nodes.{wire_to};
ghost use Rattle.resolving.specs.Slots.{NodeOf, place_want, node_of, settled, Settled, Resolved};

use held::find::{find_component, find_list};
use model::implicit_model::{InputList, Model};
use nodes::Wire;
use tag::Tag;

// The node of a tag, where it has one. It searches the tables; `Lookup::node` asks it only where a guess fails.
pub fn node_of(m: &Model, t: Tag) -> Option<usize>
    ensures { NodeOf m.now (bytes_of t) result }
{
    find_component(m, t).or_else(|| find_list(m, t).map(|l| 64 + l))
}

// A number that a tag is looked up by. Any would do: what is found by it is held against the tag.
fn key(t: &Tag) -> u64 {
    t.as_bytes().iter().fold(
        0,
        |k: u64, &b| k.wrapping_mul(257).wrapping_add(u64::from(b)),
    )
}

// What stands in a list: the wire to the node of its own tag, and those in its places.
#[derive(Clone, Copy)]
pub struct ListWires {
    pub own: Wire,
    pub places: [Wire; 3],
}

// A model, with the keys of its components' tags to look tags up by.
#[derive(Clone, Copy)]
pub struct Lookup<'a> {
    pub model: &'a Model,
    pub keys: [u64; 64],
}

impl<'a> Lookup<'a> {
    pub fn of(model: &'a Model) -> Self
        ensures { result.model.now ≡ model.now }
    {
        let mut keys = [0; 64];
        for (to, e) in keys.iter_mut().zip(model.live_components()) {
            *to = key(&e.tag);
        }
        Lookup { model, keys }
    }

    // The node of a tag, by a guess at its component where that holds.
    // Kept: the premise `passes m ≡ true →` stands in each contract below, in crate lacking and in graph's specs. A type for models that pass 7 would remove it, but callers would have to have such a value, where today they may call with any model.
    pub fn node(&self, t: Tag) -> Option<usize>
        ensures { passes self.now.model.now ≡ true → NodeOf self.now.model.now (bytes_of t) result }
    {
        let components = self.model.live_components();
        let k = key(&t);
        self.keys
            .iter()
            .zip(components)
            .position(|(x, e)| *x == k && e.tag == t)
            .or_else(|| node_of(self.model, t))
    }

    // The wire to the node of a tag; Absent where it has none.
    fn wire(&self, t: Tag) -> Wire
        ensures { passes self.now.model.now ≡ true → result ≡ wire_to (node_of self.now.model.now (bytes_of t)) }
    {
        self.node(t).map_or(Wire::Absent, Wire::leading_to)
    }

    // The wire in a place of a list: that of the tag there; Gap or Past where no tag stands.
    fn place_wire(&self, l: &InputList, p: usize) -> Wire
        ensures { passes self.now.model.now ≡ true → result ≡ settled self.now.model.now (place_want (rows place_of l.now.count l.now.places) p) }
    {
        match l.live_places().get(p) {
            Some(Some(t)) => self.wire(*t),
            Some(None) => Wire::Gap,
            None => Wire::Past,
        }
    }

    // The wires of a list.
    fn list_wires(&self, l: &InputList) -> ListWires
        ensures { passes self.now.model.now ≡ true → Settled self.now.model.now l.now result }
    {
        ListWires {
            own: self.wire(l.tag),
            places: [0, 1, 2].map(|p| self.place_wire(l, p)),
        }
    }

    // The wires of all lists.
    pub fn wires(&self) -> [ListWires; 128]
        ensures { passes self.now.model.now ≡ true → Resolved no_list self.now.model.now result }
    {
        let unread = ListWires {
            own: Wire::Past,
            places: [Wire::Past; 3],
        };
        let mut found = [unread; 128];
        // Kept: tried `found.iter_mut().zip(self.model.live_lists())`; the goal `returns` stays open, since nothing is known of an array after a loop over an adapter of its iter_mut.
        for l in 0..self.model.live_lists().len() {
            found[l] = self.list_wires(&self.model.lists[l]);
        }
        found
    }
}
