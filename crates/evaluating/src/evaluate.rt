// A form's number at a point.
ghost use Rattle.std.specs.Prelude.{◌≡◌};
ghost use Rattle.tag.specs.Tags.{Tag as Bytes};
ghost use Rattle.model.specs.Form.{Number};
ghost use Rattle.model.specs.View.{view};
ghost use Rattle.graph.specs.Compile.{OrdersAs};
ghost use Rattle.evaluating.specs.Evaluate.{input_of, Workable, EvaluatesAs};

use float::bits::bits_of;
use geometry::vec3f::Vec3;
use graph::computation_graph::{Graph, compile};
use model::implicit_model::Model;
use model::model_error::Refusal;
use nodes::Wire;

// The number of the component that a wire leads to. A place past the end of its list leads to none: NaN, which nothing reads, since a component has as many places as inputs.
// Kept: crate direct has an input's number too, but none where the component is not computed yet, which its line of rows does not rule out. An order does, so one function for both would answer an Option that is never None here.
#[tactic(auto, using(crate::proofs::Laws::Along::nan_is))]
fn input(vals: &[f64; 64], wire: Wire) -> f64
    ensures { result ≡ input_of vals.now wire }
{
    wire.component().map_or(f64::NAN, |x| vals[x])
}

// Computes the components of an order, each behind its inputs. The last one's number is the target's.
#[tactic(auto, using(crate::proofs::Laws::Along::small_at))]
fn number_along(m: &Model, g: &Graph, p: Vec3) -> f64
    requires { Workable m.now g.now }
    ensures { (t : Bytes) → OrdersAs m.now t g.now → Number (view m.now) p t result }
{
    let mut vals = [0.0; 64];
    let mut number = f64::NAN;
    for &x in g.positions() {
        let c = m.components[x].component;
        let [first, second, third] = g.inputs[x].map(|wire| input(&vals, wire));
        number = c.compute(p, first, second, third);
        vals[x] = number;
    }
    number
}

// The bits of the number of the target's form at a point, or compile's refusal.
pub fn evaluate_at(m: &Model, target: &[u8], p: Vec3) -> Result<u64, Refusal>
    ensures { EvaluatesAs m.now target.now p result }
{
    let compiled = compile(m, target);
    // Kept: document 01 names this form, `let .. else`, in evaluate_at.
    let Ok(graph) = compiled else {
        return Err(compiled.unwrap_err());
    };
    let number = number_along(m, &graph, p);
    Ok(bits_of(number))
}
