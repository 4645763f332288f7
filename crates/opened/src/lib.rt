// What the calls on a model in bytes share: the model that bytes hold, and the report.
#![tactic(auto)]

ghost use Rattle.tag.specs.View.{bytes_of};
ghost use Rattle.model.specs.Answer.{refusal_of};
ghost use Rattle.report.specs.Report.{of_answer};
ghost use Rattle.opened.specs.Said.{plain, answered, of_number, Says, Opens, Reads};

use model::implicit_model::Model;
use model::model_error::{ModelError, Refusal};
use model_bytes::decode::decode;
use report::{Report, write_report};
use tag::Tag;
use validity::is_valid;

// The model that the bytes hold, where 7 lets it pass.
pub fn opened(bytes: &[u8]) -> Result<Model, Refusal>
    ensures { Opens bytes.now result }
{
    decode(bytes)
        .filter(is_valid)
        .ok_or(Refusal::plain(ModelError::InvalidModel))
}

// The model that the bytes hold, whether or not 7 lets it pass.
pub fn read_model(bytes: &[u8]) -> Result<Model, Refusal>
    ensures { Reads bytes.now result }
{
    decode(bytes).ok_or(Refusal::plain(ModelError::InvalidModel))
}

// Says no refusal, no tag and no number.
pub fn say_nothing(out: &mut [u8]) -> u32
    ensures { Says (plain 0) out.old out.new result }
{
    write_report(out, Report::default());
    0
}

// Says a tag and a number.
pub fn say_tagged(out: &mut [u8], tag: Tag, number: u64) -> u32
    ensures { Says (answered (bytes_of tag) number) out.old out.new result }
{
    let tagged = Report {
        tag,
        number,
        ..Report::default()
    };
    write_report(out, tagged);
    0
}

// Says a refusal, with the tag and the index that it carries.
pub fn say_refusal(out: &mut [u8], r: Refusal) -> u32
    ensures { Says (of_answer (refusal_of r)) out.old out.new result }
{
    let code = u32::from(r.error);
    let refused = Report {
        code: u64::from(code),
        index: r.index as u64,
        tag: r.tag,
        number: 0,
    };
    write_report(out, refused);
    code
}

// Says the number answered, or the refusal.
pub fn say_number(out: &mut [u8], answer: Result<u64, Refusal>) -> u32
    ensures { Says (of_number answer) out.old out.new result }
{
    match answer {
        Ok(number) => say_tagged(out, Tag::default(), number),
        Err(refusal) => say_refusal(out, refusal),
    }
}
