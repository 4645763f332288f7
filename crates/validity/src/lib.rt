// Validity: whether a model is one that refusal 7 lets pass.
#![tactic(auto)]

ghost use Rattle.std.specs.Prelude.{◌≡◌, [], length, Some};
ghost use Rattle.model.specs.Answer.{Checked};
ghost use Rattle.model.specs.View.{components_of, passes};
ghost use Rattle.validity.specs.Sound.{default_sound};

use distinct_tags::distinct;
use held::find::find_component;
use model::implicit_model::{ComponentEntry, InputList, Model};
use model::model_error::{ModelError, Refusal};
use sound_components::components_sound;
use sound_lists::lists_sound;
use tag::Tag;

// Whether the tag is within its size, and a component has it.
fn names_component(m: &Model, tag: Tag) -> bool
    ensures { result ≡ default_sound (components_of m.now) (Some tag) }
{
    tag.fits() && find_component(m, tag).is_some()
}

// Whether there is no default, or one that names a component.
fn default_sound(m: &Model) -> bool
    ensures { result ≡ default_sound (components_of m.now) m.now.default }
{
    m.default.is_none_or(|tag| names_component(m, tag))
}

// Whether the model passes, and that its tables have their sizes: a slice of a table says so, and a reference to the model does not.
fn judge(m: &Model) -> bool
    ensures told { result ≡ passes m.now }
    ensures sizes { (length m.now.components ≡ 64) × (length m.now.lists ≡ 128) }
{
    let components: &[ComponentEntry] = &m.components;
    let lists: &[InputList] = &m.lists;
    m.component_count <= components.len()
        && m.list_count <= lists.len()
        && lists_sound(m.live_lists())
        && components_sound(m)
        && distinct(m.live_components())
        && distinct(m.live_lists())
        && default_sound(m)
}

// Whether the model is one that refusal 7 lets pass.
pub fn is_valid(m: &Model) -> bool
    ensures { result ≡ passes m.now }
{
    judge(m)
}

// Refusal 7, of a model that it does not let pass; and the sizes of the tables of any model.
pub fn check(m: &Model) -> Result<(), Refusal>
    ensures judged { Checked (passes m.now) 7 [] 0 result }
    ensures sizes { (length m.now.components ≡ 64) × (length m.now.lists ≡ 128) }
{
    if judge(m) {
        return Ok(());
    }
    Err(Refusal::plain(ModelError::InvalidModel))
}
