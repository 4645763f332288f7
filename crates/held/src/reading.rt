// A new model, and the calls that read a model and change nothing. They read what the record holds, whether or not 7 lets it pass.
ghost use Rattle.std.specs.Prelude.{◌≡◌};
ghost use Rattle.std.proofs.Math.ListN.{get_elem?};
ghost use Rattle.tag.specs.View.{bytes_of};
ghost use Rattle.model.specs.Model.{component, list};
ghost use Rattle.model.specs.View.{place_of, view};
ghost use Rattle.held.specs.Reading.{New, component_read, entry_read, list_read, places_read};

use crate::find::{find_component, find_list};
use component::model_component::Component;
use model::implicit_model::{ComponentEntry, InputList, Model, Place};
use tag::Tag;

// A new model holds nothing and has no default.
pub fn new() -> Model
    ensures { New result }
{
    Model {
        components: [ComponentEntry::default(); 64],
        component_count: 0,
        lists: [InputList::default(); 128],
        list_count: 0,
        default: None,
    }
}

// The default, which is unassigned where there is none.
pub fn get_default_output(m: &Model) -> Place
    ensures { place_of result ≡ (view m.now).default }
{
    m.default
}

// The tag and the component at a position of the component table.
pub fn component_at(m: &Model, i: usize) -> Option<ComponentEntry>
    ensures { entry_read result ≡ get_elem? (view m.now).components i }
{
    m.live_components().get(i).copied()
}

// The tag and the places at a position of the table of input lists.
pub fn list_at(m: &Model, i: usize) -> Option<InputList>
    ensures { list_read result ≡ get_elem? (view m.now).lists i }
{
    m.live_lists().get(i).copied()
}

// The component with that tag.
pub fn get_component(m: &Model, t: Tag) -> Option<Component>
    ensures { component_read result ≡ component (view m.now) (bytes_of t) }
{
    let i = find_component(m, t)?;
    Some(m.components[i].component)
}

// That tag's input list, whether the tag has a component or not.
pub fn get_inputs(m: &Model, t: Tag) -> Option<InputList>
    ensures { places_read result ≡ list (view m.now) (bytes_of t) }
{
    let i = find_list(m, t)?;
    Some(m.lists[i])
}
