// The wires of a form, by node.
ghost use Rattle.std.specs.Prelude.{length};
ghost use Rattle.graph.specs.Wiring.{Owned, Wired};

use nodes::{Wire, Wires};
use resolving::slots::ListWires;

// The places of each node's list.
pub(crate) fn wires(lists: &[ListWires]) -> Wires
    requires { Owned lists.now (length lists.now) }
    ensures { Wired lists.now (length lists.now) result }
{
    let mut w = [[Wire::Past; 3]; 192];
    for list in lists {
        if let Some(x) = list.own.node() {
            w[x] = list.places;
        }
    }
    w
}
