// Nodes by number: the reach of one, and an order of it with inputs ahead of users. A node is a component below 64, else a list's tag below 192.
#![tactic(auto)]

ghost use Rattle.std.specs.Prelude.{ℕ, ◌≡◌, ◌<◌, true, false, Some};
ghost use Rattle.nodes.specs.Nodes.{◌∈◌, target, component_target, wire_to, filled_of, whole_of, Ready, Waiting, Next, NotNext, NextIn, Grown, IsReach, Ordered, Whole, LaysOut};

use node_list::NodeList;

pub mod node_list;

// What stands in a place of a node.
// Kept: standing's `Wire` has one case for a gap and an absent tag, which are told apart here alone, so one enum for both would have a case that there never is.
#[derive(Clone, Copy)]
pub enum Wire {
    // There is no such place.
    Past,
    // It is unassigned.
    Gap,
    // Its tag has neither a component nor a list.
    Absent,
    // The node of its tag.
    To(u8),
}

impl Wire {
    // The wire to the node of that number; Absent where no node has it.
    pub fn leading_to(node: usize) -> Wire
        ensures { result ≡ wire_to node }
    {
        if node < 192 {
            Wire::To(node as u8)
        } else {
            Wire::Absent
        }
    }

    // The node that it leads to.
    pub fn node(self) -> Option<usize>
        ensures { result ≡ target self }
    {
        match self {
            Wire::To(x) if x < 192 => Some(x as usize),
            _ => None,
        }
    }

    // The component that it leads to.
    pub fn component(self) -> Option<usize>
        ensures { result ≡ component_target self }
    {
        self.node().filter(|&x| x < 64)
    }

    // It leads to a component, or there is no such place.
    fn is_filled(self) -> bool
        ensures { result ≡ filled_of self }
    {
        matches!(self, Wire::Past) || self.component().is_some()
    }

    // It leads to no node, or to one that is placed.
    fn is_served(self, placed: &NodeList<192>) -> bool
        ensures yes { result ≡ true → (x : ℕ) → target self ≡ Some x → x ∈ placed.now }
        ensures no { result ≡ false → (x : ℕ) × (target self ≡ Some x) × (¬ (x ∈ placed.now)) }
    {
        self.node().is_none_or(|x| placed.contains(x))
    }
}

// What stands in the three places of each node.
// Kept: as methods of a struct around the table each clause would say `self.now.0` for `w.now`, and nothing else would change.
pub type Wires = [[Wire; 3]; 192];

// All places of node i are served.
// Kept: (here and below) a node's number is a usize, and its bound is asked for; a type for the number would be made and taken apart at each index.
fn is_ready(w: &Wires, placed: &NodeList<192>, i: usize) -> bool
    requires { i < 192 }
    ensures yes { result ≡ true → Ready w.now placed.now i }
    ensures no { result ≡ false → Waiting w.now placed.now i }
{
    w[i].iter().all(|wire| wire.is_served(placed))
}

// Node i is not placed yet, and can be.
fn can_be_next(w: &Wires, placed: &NodeList<192>, i: usize) -> bool
    requires { i < 192 }
    ensures yes { result ≡ true → Next w.now placed.now i }
    ensures no { result ≡ false → NotNext w.now placed.now i }
{
    !placed.contains(i) && is_ready(w, placed, i)
}

// One of the line that can be placed next. The choice among them is made here alone: from the back, where the inputs stand.
fn next_ready(w: &Wires, line: &NodeList<192>, placed: &NodeList<192>) -> Option<usize>
    ensures { NextIn w.now line.now placed.now result }
{
    line.nodes()
        .iter()
        .rev()
        .find(|&&x| can_be_next(w, placed, x))
        .copied()
}

// The reach of t, inputs ahead of users; none where t reaches a cycle.
fn lay(w: &Wires, reach: &NodeList<192>, t: usize) -> Option<NodeList<192>>
    requires node { t < 192 }
    requires reached { IsReach w.now t reach.now }
    ensures { Ordered w.now t result }
{
    let mut order = NodeList::new();
    // Kept: which node is next depends on all that are placed, so there is no sequence to iterate.
    while !order.contains(t) {
        let x = next_ready(w, reach, &order)?;
        order.push(x);
    }
    Some(order)
}

// The nodes that wires lead to join the line, where they are not there.
fn extend_with(line: &mut NodeList<192>, wires: &[Wire])
    ensures { Grown line.old wires.now line.new }
{
    for wire in wires {
        if let Some(x) = wire.node() {
            line.push(x);
        }
    }
}

// The reach of t: a line of nodes, each met once, whose inputs join at its turn.
fn reach(w: &Wires, t: usize) -> NodeList<192>
    requires { t < 192 }
    ensures { IsReach w.now t result }
{
    let mut line = NodeList::new();
    line.push(t);
    let mut i = 0;
    // Kept: the line grows while it is walked, so no iterator over it can drive this loop.
    while let Some(&x) = line.nodes().get(i) {
        extend_with(&mut line, &w[x]);
        i += 1;
    }
    line
}

// Node i is a component, and each of its places is filled.
fn is_whole(w: &Wires, i: usize) -> bool
    ensures { result ≡ whole_of w.now i }
{
    i < 64 && w[i].iter().all(|wire| wire.is_filled())
}

// The reach of a node; an order of it, or that there is none; and whether all of it are components whose places are filled: then neither 12 nor 13 can be the refusal.
#[derive(Clone, Copy)]
pub struct LaidOut {
    pub reach: NodeList<192>,
    pub order: Option<NodeList<192>>,
    pub whole: bool,
}

// The reach of t, laid out. What is no node has none.
pub fn lay_out(w: &Wires, t: usize) -> LaidOut
    ensures { t < 192 → LaysOut w.now t result.reach result.order result.whole }
{
    if 192 <= t {
        return LaidOut {
            reach: NodeList::new(),
            order: None,
            whole: false,
        };
    }
    let reach = reach(w, t);
    let order = lay(w, &reach, t);
    let whole = reach.nodes().iter().all(|&x| is_whole(w, x));
    LaidOut {
        reach,
        order,
        whole,
    }
}
