// The inputs that `add_operation` is handed, and the list made of them: what an adding shares, whether it is made in a record or in bytes.
#![tactic(auto)]

ghost use Rattle.std.specs.Prelude.{◌≡◌, ◌≤◌, replicate, map, IfSome};
ghost use Rattle.std.proofs.Math.Option.{none, some};
ghost use Rattle.tag.specs.Tags.{overlong};
ghost use Rattle.model.specs.Table.{any};
ghost use Rattle.model.specs.Edit.{looked_at};
ghost use Rattle.input_rows.specs.Inputs.{tags_of, named, inputs_of, fitting, RowOf, Short, asked};

use model::implicit_model::InputList;
use tag::{Tag, tag_of};

// So many tags, of which the first three at most are looked at; those that stand beyond the count are not.
// Kept: three fields and no array: specs/ names the tags one by one, and would read an array's by `get_or`, with a tag for where there is none.
#[derive(Clone, Copy)]
pub struct Inputs<'a> {
    pub count: usize,
    pub first: &'a [u8],
    pub second: &'a [u8],
    pub third: &'a [u8],
}

impl<'a> Inputs<'a> {
    // Whether a tag that is looked at is longer than 32 bytes.
    fn too_long(self) -> bool
        ensures { result ≡ any overlong (looked_at (some (tags_of self.entry))) }
    {
        [self.first, self.second, self.third]
            .iter()
            .take(self.count)
            .any(|tag| 32 < tag.len())
    }

    // A list of the first k of the tags.
    fn row(self, t: Tag, k: usize) -> InputList
        ensures { Short k self.entry → RowOf t (map some (named k self.entry)) result }
    {
        InputList {
            tag: t,
            count: k,
            places: [
                Some(tag_of(self.first)),
                Some(tag_of(self.second)),
                Some(tag_of(self.third)),
            ],
        }
    }
}

// Whether a tag that is given and looked at is longer than 32 bytes.
#[tactic(auto, unfolding(crate::specs::Inputs::inputs_of))]
pub fn too_long(inputs: Option<Inputs>) -> bool
    ensures { result ≡ any overlong (looked_at (inputs_of inputs.entry)) }
{
    inputs.is_some_and(Inputs::too_long)
}

// Whether as many inputs as the operation takes are given, or none.
pub fn inputs_fit(inputs: Option<Inputs>, k: usize) -> bool
    ensures { result ≡ fitting inputs.entry k }
{
    inputs.is_none_or(|given| given.count == k)
}

// A list of k unassigned places, three at most.
pub fn unassigned_row(t: Tag, k: usize) -> InputList
    ensures { k ≤ 3 → RowOf t (replicate k none) result }
{
    InputList {
        tag: t,
        count: k,
        places: [None; 3],
    }
}

// The list of a new operation: the inputs given, or unassigned places. It is right where they are short and three at most.
pub fn operation_row(t: Tag, inputs: Option<Inputs>, k: usize) -> InputList
    ensures { k ≤ 3 → IfSome inputs.entry (Short k) → RowOf t (asked inputs.entry k) result }
{
    match inputs {
        Some(given) => given.row(t, k),
        None => unassigned_row(t, k),
    }
}
