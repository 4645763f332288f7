// Distinct nodes in a row.
ghost use Rattle.std.specs.Prelude.{◌≡◌, ◌<◌, true, false, []};
ghost use Rattle.nodes.specs.Nodes.{◌∈◌, AreDistinct, MarksBelow, Pushed};

use std::marker::Model;

// Nodes below N, in the order in which they joined, and a mark for each that is among them.
// Kept: memory is fixed, so the nodes stand in an array with their count beside it.
#[derive(Clone, Copy)]
pub struct NodeList<const N: usize> {
    at: [usize; N],
    count: usize,
    marks: [bool; N],
}

// Clauses see the nodes.
impl<const N: usize> Model for NodeList<N> {
    ghost use Rattle.std.specs.Prelude.{ℕ, List, take, length};
    ghost use Rattle.nodes.specs.Nodes.{GivesBack, array_of, marks_of};

    ghost Value = { List ℕ };

    ghost view = { λ l. take l.count l.at };

    ghost invariant = { λ l. GivesBack N l.at l.count l.marks };

    ghost inverse = { λ xs. record { at = array_of N xs; count = length xs; marks = marks_of N xs } };

    ghost inverse_ok = { λ l h i. record {
      at = h.array_back i;
      count = h.count_back i;
      marks = h.marks_back i;
    } };
}

impl<const N: usize> NodeList<N> {
    pub fn new() -> NodeList<N>
        ensures { result ≡ [] }
    {
        NodeList {
            at: [0; N],
            count: 0,
            marks: [false; N],
        }
    }

    pub fn nodes(&self) -> &[usize]
        ensures same { result.now ≡ self.now }
        ensures nodes { AreDistinct N result.now }
    {
        &self.at[..self.count]
    }

    pub fn marks(&self) -> &[bool; N]
        ensures { MarksBelow N self.now result.now }
    {
        &self.marks
    }

    pub fn contains(&self, x: usize) -> bool
        ensures yes { result ≡ true → x ∈ self.now }
        ensures no { result ≡ false → ¬ (x ∈ self.now) }
    {
        x < N && self.marks[x]
    }

    // x joins, if it is a node and not there yet.
    pub fn push(&mut self, x: usize)
        ensures { Pushed N self.old x self.new }
    {
        if N <= x || self.contains(x) {
            return;
        }
        self.at[self.count] = x;
        self.marks[x] = true;
        self.count += 1;
    }
}
