// The compiled form: an order of its components, inputs ahead of users.
ghost use Rattle.std.specs.Prelude.{◌≡◌, true, false};
ghost use Rattle.tag.specs.Tags.{overlong};
ghost use Rattle.tag.specs.View.{bytes_of};
ghost use Rattle.model.specs.View.{passes};
ghost use Rattle.held.proofs.Laws.Rows.{no_list};
ghost use Rattle.graph.specs.Compile.{positions_of, Filled, Placing, CompilesAs, Judged};

use crate::wiring::wires;
use lacking::least::{least_absent, least_gap};
use model::implicit_model::Model;
use model::model_error::{ModelError, Refusal};
use nodes::{LaidOut, Wire, Wires, lay_out};
use resolving::slots::{ListWires, Lookup};
use tag::Tag;
use validity::check;

// The order holds positions of the component table, as many as the count says.
// inputs[x][p] is the wire in place p of the component at x: to a component, or Past where there is no such place. Of x outside the order nothing is said.
// Kept: an array and a count, since memory is fixed; not `NodeList<64>`, which carries marks that nothing reads here.
#[derive(Clone, Copy)]
pub struct Graph {
    pub count: usize,
    pub order: [usize; 64],
    pub inputs: [[Wire; 3]; 64],
}

impl Graph {
    // The positions in the order.
    pub fn positions(&self) -> &[usize]
        ensures { result.now ≡ positions_of self.now }
    {
        self.order.get(..self.count).unwrap_or(&self.order)
    }
}

// The first 64 nodes of an order; 0 behind them.
// Kept: memory is fixed, so an order of any length goes into an array. `std::array::from_fn` would say `nodes.get(i).copied().unwrap_or(0)` of each place, which is no plainer than the copy of the front.
fn first_nodes(nodes: &[usize]) -> [usize; 64]
    ensures { Filled nodes.now result }
{
    let mut o = [0; 64];
    let n = nodes.len().min(64);
    o[..n].copy_from_slice(&nodes[..n]);
    o
}

// An order, with its wires.
fn placed(order: &[usize], w: &Wires) -> Graph
    ensures { Placing order.now w.now result }
{
    Graph {
        count: order.len(),
        order: first_nodes(order),
        inputs: *w.first_chunk().unwrap(),
    }
}

// Compile after 7, 1 and 14, of a form that may lack something: 12, 13, or an order.
fn placed_if_full(
    m: &Model,
    found: &[ListWires; 128],
    seen: &[bool; 192],
    order: &[usize],
    w: &Wires,
) -> Result<Graph, Refusal>
    ensures { Judged no_list m.now found.now w.now order.now seen.now result }
{
    if let Some(absent) = least_absent(m, found, seen) {
        return Err(Refusal::of(ModelError::MissingTag, absent));
    }
    if let Some(gap) = least_gap(m, found, seen) {
        return Err(Refusal::at(ModelError::MissingInput, gap.tag, gap.index));
    }
    Ok(placed(order, w))
}

// Compile after 7 and 1: 14, 12, 13, or an order.
fn ordered(m: &Model, t: Tag) -> Result<Graph, Refusal>
    requires { (passes m.now ≡ true) × (overlong (bytes_of t) ≡ false) }
    ensures { CompilesAs m.now (bytes_of t) result }
{
    let lookup = Lookup::of(m);
    let x = lookup
        .node(t)
        .ok_or(Refusal::of(ModelError::MissingTag, t))?;
    let found = lookup.wires();
    let w = wires(&found[..m.live_lists().len()]);
    let LaidOut {
        reach,
        order,
        whole,
    } = lay_out(&w, x);
    let order = order.ok_or(Refusal::of(ModelError::CyclicDependency, t))?;
    let nodes = order.nodes();
    let seen = reach.marks();
    if whole {
        return Ok(placed(nodes, &w));
    }
    placed_if_full(m, &found, seen, nodes, &w)
}

// The order in which the target's components are computed, or why there is none: 7, 1, 14, 12, 13.
pub fn compile(m: &Model, target: &[u8]) -> Result<Graph, Refusal>
    ensures { CompilesAs m.now target.now result }
{
    check(m)?;
    let t = Tag::try_from(target)?;
    ordered(m, t)
}
