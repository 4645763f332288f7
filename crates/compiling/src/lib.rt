// The call that asks for a form's order (docs/ABI.md).
#![tactic(auto)]

ghost use Rattle.std.specs.Prelude.{◌≡◌, ◌*◌, ◌≤◌, length};
ghost use Rattle.std.proofs.Math.Option.{some};
ghost use Rattle.model.specs.View.{rows};
ghost use Rattle.graph.specs.Compile.{tag_at};
ghost use Rattle.evaluating.specs.Evaluate.{Workable};
ghost use Rattle.rows.specs.Rows.{rows_in};
ghost use Rattle.rows.specs.Written.{Wrote};
ghost use Rattle.compiling.specs.Order.{tag_row, OrderIn, Orders, Compiles, tags_of};

use graph::computation_graph::{Graph, compile};
use model::implicit_model::Model;
use model::model_error::Refusal;
use opened::{read_model, say_number};
use rows::writing::write_tag;

// Writes the tags of an order.
fn write_tags(m: &Model, g: &Graph, order: &mut [u8])
    requires { Workable m.now g.now × (2560 ≤ length order.old) }
    ensures { Wrote (λ u. rows_in (tag_row u) g.now.count) (some (rows (tag_at m.now) g.now.count g.now.order)) 0 (40 * g.now.count) order.old order.new }
{
    for (i, &x) in g.positions().iter().enumerate() {
        write_tag(order, 40 * i, m.components[x].tag);
    }
}

// Writes them where there is room for the longest order.
fn write_order(m: &Model, g: &Graph, order: &mut [u8])
    requires { Workable m.now g.now }
    ensures { OrderIn (tags_of m.now g.now) order.old order.new }
{
    if order.len() < 2560 {
        return;
    }
    write_tags(m, g, order);
}

// Writes the tags of the target's order, and answers how many they are.
fn order_in(model: &[u8], target: &[u8], order: &mut [u8]) -> Result<u64, Refusal>
    ensures { Orders model.now target.now order.old order.new result }
{
    let m = read_model(model)?;
    let graph = compile(&m, target)?;
    write_order(&m, &graph, order);
    Ok(graph.count as u64)
}

// The order in which the target's components are computed, as tags, or a refusal.
pub fn dw_compile(model: &[u8], target: &[u8], order: &mut [u8], out: &mut [u8]) -> u32
    ensures { Compiles model.now target.now order.old order.new out.old out.new result }
{
    say_number(out, order_in(model, target, order))
}
