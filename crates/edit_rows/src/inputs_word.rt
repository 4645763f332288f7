// The inputs of an operation, as a word and three tags.
ghost use Rattle.std.specs.Prelude.{◌≡◌};
ghost use Rattle.input_rows.specs.Inputs.{inputs_of};
ghost use Rattle.edit_rows.specs.EditRows.{given};

use input_rows::Inputs;

// The inputs of a word: 0 says that none are given; any other word is one more than their count.
#[tactic(auto, unfolding(crate::specs::EditRows::given, input_rows::specs::Inputs::inputs_of))]
pub fn inputs_given<'a>(
    word: u64,
    first: &'a [u8],
    second: &'a [u8],
    third: &'a [u8],
) -> Option<Inputs<'a>>
    ensures { inputs_of result ≡ given word first.now second.now third.now }
{
    let count = word.checked_sub(1)? as usize;
    Some(Inputs {
        count,
        first,
        second,
        third,
    })
}
