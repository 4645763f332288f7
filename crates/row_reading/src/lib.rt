// Reading from the bytes that the host lends (docs/LAYOUT.md): what decoding a model and testing its bytes share.
#![tactic(auto)]

ghost use Rattle.std.specs.Prelude.{◌≡◌, ◌-◌};
ghost use Rattle.component_layout.specs.Components.{component_read};
ghost use Rattle.rows.specs.Rows.{blank, component_in};

use component::model_component::Component;
use component_layout::component_numbers::ComponentWords;
use component_layout::component_words::{component_from, words_at};

// Whether the bytes from one up to another are 0. Past the slice's end stands 0.
pub fn is_blank(s: &[u8], start: usize, end: usize) -> bool
    ensures { result ≡ blank s.now start (end - start) }
{
    let there = s.get(start..end.min(s.len())).unwrap_or(&[]);
    there.iter().all(|b| *b == 0)
}

// The component at byte `at`, where the six words are the component's own: a NaN has the one NaN's bits, and unused words are 0.
#[tactic(auto, unfolding(rows::specs::Rows::component_in, rows::specs::Rows::same_words))]
pub fn read_component(s: &[u8], at: usize) -> Option<Component>
    ensures { component_read result ≡ component_in s.now at }
{
    let w = words_at(s, at);
    component_from(w).filter(|c| ComponentWords::from(*c) == w)
}
