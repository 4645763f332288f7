// The record of a model: fixed tables whose first rows, by the counts, are live.
ghost use Rattle.std.specs.Prelude.{◌≡◌, min, length, take, false, pos};
ghost use Rattle.std.specs.Float.{fin};
ghost use Rattle.tag.specs.Tags.{Tag as Bytes, empty};
ghost use Rattle.tag.specs.View.{bytes_of, Made};
ghost use Rattle.component.specs.declared.model_component.Component.TheVariants.{Constant};

use component::model_component::Component;
use tag::Tag;

// A place names a tag, or is unassigned.
pub type Place = Option<Tag>;

#[derive(Clone, Copy)]
pub struct ComponentEntry {
    pub tag: Tag,
    pub component: Component,
}

// The empty tag with the number 0: what an unused row holds.
impl Default for ComponentEntry {
    ghost is_default = { λ e. Made empty e.tag × (e.component ≡ Constant (fin false 0 (pos 0))) };

    fn default() -> ComponentEntry {
        ComponentEntry {
            tag: Tag::default(),
            component: Component::Constant(0.0),
        }
    }
}

// Kept: an array with a count beside it, since memory is fixed, document 01 gives a list three places, and a larger count is legal input, which 7 refuses.
#[derive(Clone, Copy, Default)]
pub struct InputList {
    pub tag: Tag,
    pub count: usize,
    pub places: [Place; 3],
}

// Kept: arrays with counts, since document 01 fixes both tables and a larger count is legal input, which 7 refuses.
#[derive(Clone, Copy)]
pub struct Model {
    pub components: [ComponentEntry; 64],
    pub component_count: usize,
    pub lists: [InputList; 128],
    pub list_count: usize,
    pub default: Place,
}

// A row of a table, which is found by its tag.
pub trait Tagged {
    ghost tag_bytes: { Self → Bytes };

    fn tag(&self) -> &Tag
        ensures { bytes_of result.now ≡ tag_bytes self.now };
}

impl Tagged for ComponentEntry {
    ghost tag_bytes = { λ e. bytes_of e.tag };

    fn tag(&self) -> &Tag {
        &self.tag
    }
}

impl Tagged for InputList {
    ghost tag_bytes = { λ l. bytes_of l.tag };

    fn tag(&self) -> &Tag {
        &self.tag
    }
}

// The live rows of a table, the first by a count. A count past the table counts as its size.
fn live<R>(table: &[R], count: usize) -> &[R]
    ensures rows { result.now ≡ take count table.now }
    ensures bound { length result.now ≡ min count (length table.now) }
{
    table.get(..count).unwrap_or(table)
}

impl InputList {
    // The live places.
    pub fn live_places(&self) -> &[Place]
        ensures rows { result.now ≡ take self.now.count self.now.places }
        ensures bound { length result.now ≡ min self.now.count 3 }
    {
        live(&self.places, self.count)
    }
}

impl Model {
    // The live rows of the component table.
    pub fn live_components(&self) -> &[ComponentEntry]
        ensures rows { result.now ≡ take self.now.component_count self.now.components }
        ensures bound { length result.now ≡ min self.now.component_count 64 }
    {
        live(&self.components, self.component_count)
    }

    // The live rows of the table of input lists.
    pub fn live_lists(&self) -> &[InputList]
        ensures rows { result.now ≡ take self.now.list_count self.now.lists }
        ensures bound { length result.now ≡ min self.now.list_count 128 }
    {
        live(&self.lists, self.list_count)
    }
}
