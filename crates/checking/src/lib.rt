// The call that checks a model (docs/ABI.md).
#![tactic(auto)]

ghost use Rattle.opened.specs.Said.{held_in, Says};
ghost use Rattle.checking.specs.Check.{checked};

use opened::{opened, say_nothing, say_refusal};

// Whether the bytes hold a model that 7 lets pass.
pub fn dw_check(model: &[u8], out: &mut [u8]) -> u32
    ensures { Says (checked (held_in model.now)) out.old out.new result }
{
    match opened(model) {
        Ok(_) => say_nothing(out),
        Err(refusal) => say_refusal(out, refusal),
    }
}
