// Why a call is refused, and how an edit ends.
ghost use Rattle.std.specs.Prelude.{◌≡◌, []};
ghost use Rattle.tag.specs.View.{bytes_of};
ghost use Rattle.model.specs.Answer.{number_of, unsettled, refusal_of};
ghost use Rattle.model.specs.Edit.{refused};

use component::parameter::ParameterError;
use tag::{Tag, TagTooLong};

// The refusals. Document 01's number of each is `number_of` in specs/Answer.antt.
#[derive(Clone, Copy, Debug, PartialEq, Eq)]
pub enum ModelError {
    TagTooLong = 1,
    IncorrectInputCount = 2,
    InputIndexOutOfRange = 3,
    ParameterDoesNotFit = 4,
    ParameterTooNear = 5,
    InvalidModel = 7,
    DuplicateTag = 11,
    MissingTag = 12,
    MissingInput = 13,
    CyclicDependency = 14,
    ComponentsFull = 15,
    ListsFull = 16,
    NumberedTagTooLong = 17,
}

impl From<ModelError> for u32 {
    ghost from_gives = { λ e n. n ≡ number_of e };

    fn from(e: ModelError) -> u32 {
        e as u32
    }
}

impl From<ParameterError> for ModelError {
    ghost from_gives = { λ p e. e ≡ unsettled p };

    fn from(e: ParameterError) -> ModelError {
        match e {
            ParameterError::DoesNotFit => ModelError::ParameterDoesNotFit,
            ParameterError::TooNear => ModelError::ParameterTooNear,
        }
    }
}

// A refusal, with the tag and the index that it carries.
// Kept: document 01 gives each refusal a tag and an index, empty and 0 where it names none; cases with fields would write both out again at the report.
#[derive(Clone, Copy)]
pub struct Refusal {
    pub error: ModelError,
    pub tag: Tag,
    pub index: usize,
}

impl Refusal {
    // A refusal that carries nothing.
    pub fn plain(error: ModelError) -> Refusal
        ensures { refusal_of result ≡ refused (number_of error) [] 0 }
    {
        Refusal::of(error, Tag::default())
    }

    // One that carries a tag.
    pub fn of(error: ModelError, tag: Tag) -> Refusal
        ensures { refusal_of result ≡ refused (number_of error) (bytes_of tag) 0 }
    {
        Refusal::at(error, tag, 0)
    }

    // One that carries a tag, and the index of an input.
    pub fn at(error: ModelError, tag: Tag, index: usize) -> Refusal
        ensures { refusal_of result ≡ refused (number_of error) (bytes_of tag) index }
    {
        Refusal { error, tag, index }
    }
}

// Bytes that are too many for a tag are refused, and no tag is carried.
impl From<TagTooLong> for Refusal {
    ghost from_gives = { λ _ r. refusal_of r ≡ refused 1 [] 0 };

    fn from(_long: TagTooLong) -> Refusal {
        Refusal::plain(ModelError::TagTooLong)
    }
}

// How an edit ends: done, done with a tag made, or refused.
pub type Answer = Result<Option<Tag>, Refusal>;
