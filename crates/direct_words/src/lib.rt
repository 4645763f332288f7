// An edit made in the bytes whose component comes in words. Words of no kind are left to the edit of the record, which refuses them.
#![tactic(auto)]

ghost use Rattle.direct_rows.specs.Took.{Makes};
ghost use Rattle.word_edits.specs.Edits.{component_edit};

use component_layout::component_numbers::ComponentWords;
use component_layout::component_words::component_from;
use direct_component::add_component_in;
use tag::Tag;

#[tactic(auto, unfolding(word_edits::specs::Edits::component_edit))]
pub fn add_component_in_of(s: &mut [u8], tag: &[u8], w: ComponentWords) -> Option<Tag>
    ensures { Makes (component_edit tag.now w) s.old s.new result }
{
    let component = component_from(w)?;
    add_component_in(s, tag, component)
}
