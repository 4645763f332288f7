// Edits whose component or data come in words. Words of no kind make an edit that is refused with 4.
#![tactic(auto)]

ghost use Rattle.std.specs.Prelude.{◌≡◌};
ghost use Rattle.edit.specs.Meets.{Meets};
ghost use Rattle.word_edits.specs.Edits.{function_of, component_edit, operation_of, data_of};

use component::model_component::Component;
use component::parameter::Data;
use component_layout::component_numbers::ComponentWords;
use component_layout::component_words::{DataWords, component_from, data_from};
use edit::Edited;
use model::implicit_model::Model;

// The component of the words: where they are of no kind one that is no function, so that `add_function` refuses it with 4.
// Kept: (here and below) a component stands for words of no kind. 4 has its place among the refusals of the edit itself, behind 7 and 1; with an Option each of these edits would need a second public form, which takes None, and that is no plainer.
#[tactic(auto, unfolding(crate::specs::Edits::function_of))]
pub fn function_of(w: ComponentWords) -> Component
    ensures { result ≡ function_of w }
{
    component_from(w).unwrap_or(Component::Multiply)
}

// The component of the words: where they are of no kind one that is no operation, so that `add_operation` refuses it with 4.
#[tactic(auto, unfolding(crate::specs::Edits::operation_of))]
pub fn operation_of(w: ComponentWords) -> Component
    ensures { result ≡ operation_of w }
{
    component_from(w).unwrap_or(Component::Constant(0.0))
}

// The data of the words: where they are of no kind a boolean, which no parameter takes, so that `set_parameter` refuses it with 4.
#[tactic(auto, unfolding(crate::specs::Edits::data_of))]
pub fn data_of(w: DataWords) -> Data
    ensures { result ≡ data_of w }
{
    data_from(w).unwrap_or(Data::Boolean(false))
}

// `add_component`. It takes a component of any kind, so none could stand for words of no kind: they go to `add_function`, as a component that is no function.
#[tactic(auto, unfolding(crate::specs::Edits::component_edit))]
pub fn add_component_of(m: Model, tag: &[u8], w: ComponentWords) -> Edited
    ensures { Meets (component_edit tag.now w) m result }
{
    match component_from(w) {
        Some(found) => adding_component::add_component(m, tag, found),
        None => adding::add_function(m, tag, Component::Multiply),
    }
}
