// Finding a component or a list by its tag.
ghost use Rattle.std.specs.Prelude.{◌≡◌};
ghost use Rattle.std.specs.List.{position};
ghost use Rattle.tag.specs.Tags.{is};
ghost use Rattle.tag.specs.View.{bytes_of};
ghost use Rattle.model.specs.View.{components_of, lists_of};
ghost use Rattle.held.specs.Search.{Sought, Found, Free};

use model::implicit_model::{Model, Tagged};
use model::model_error::{ModelError, Refusal};
use tag::Tag;

// Where the row with that tag stands.
pub fn position_of<R: Tagged>(table: &[R], t: &Tag) -> Option<usize>
    ensures { result ≡ position (λ r. is (R.tag_bytes r) (bytes_of t.now)) table.now }
{
    table.iter().position(|r| r.tag() == t)
}

// Where the component with that tag stands.
pub fn find_component(m: &Model, t: Tag) -> Option<usize>
    ensures { Sought (components_of m.now) 64 (bytes_of t) result }
{
    position_of(m.live_components(), &t)
}

// Where the input list with that tag stands.
pub fn find_list(m: &Model, t: Tag) -> Option<usize>
    ensures { Sought (lists_of m.now) 128 (bytes_of t) result }
{
    position_of(m.live_lists(), &t)
}

// Where the component with that tag stands: 12 where there is none.
pub fn held_component(m: &Model, tag: Tag) -> Result<usize, Refusal>
    ensures { Found (components_of m.now) 64 (bytes_of tag) result }
{
    find_component(m, tag).ok_or(Refusal::of(ModelError::MissingTag, tag))
}

// Where the input list with that tag stands: 12 where there is none.
pub fn held_list(m: &Model, tag: Tag) -> Result<usize, Refusal>
    ensures { Found (lists_of m.now) 128 (bytes_of tag) result }
{
    find_list(m, tag).ok_or(Refusal::of(ModelError::MissingTag, tag))
}

// That no component has the tag: 11 where one has.
pub fn check_free(m: &Model, tag: Tag) -> Result<(), Refusal>
    ensures { Free (components_of m.now) (bytes_of tag) result }
{
    if find_component(m, tag).is_some() {
        return Err(Refusal::of(ModelError::DuplicateTag, tag));
    }
    Ok(())
}
