// Components judged by refusal 7: tags within their size, and a list of its count for every operation.
#![tactic(auto)]

ghost use Rattle.std.specs.Prelude.{◌≡◌};
ghost use Rattle.model.specs.View.{rows, every, lists_of};
ghost use Rattle.sound_components.specs.Sound.{entry_sound};

use held::reading::get_inputs;
use model::implicit_model::{ComponentEntry, Model};

// Whether a component's tag is within its size, and an operation has a list of its count.
fn entry_sound(m: &Model, e: &ComponentEntry) -> bool
    ensures { result ≡ entry_sound (lists_of m.now) e.now }
{
    let takes = e.component.input_count();
    e.tag.fits()
        && (takes == 0
            || get_inputs(m, e.tag).is_some_and(|list| list.live_places().len() == takes))
}

// Whether every component is sound.
pub fn components_sound(m: &Model) -> bool
    ensures { result ≡ every (rows (entry_sound (lists_of m.now)) m.now.component_count m.now.components) }
{
    m.live_components().iter().all(|e| entry_sound(m, e))
}
