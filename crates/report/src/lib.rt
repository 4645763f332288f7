// The report that every call writes: 64 bytes with its code, what a refusal carries, the tag made and the number answered (docs/ABI.md).
#![tactic(auto)]

ghost use Rattle.std.specs.Prelude.{◌≡◌, ◌≤◌, length};
ghost use Rattle.tag.specs.View.{bytes_of};
ghost use Rattle.layout.specs.Writing.{put};
ghost use Rattle.report.specs.Report.{padded, reported};

use layout::writing::write_word;
use tag::Tag;

// Writes a tag's bytes into the 32 bytes from 24 on, and 0 behind them.
// Kept: not the writer of a tag in crate rows. Its clause says what is read there afterwards, and this one's which bytes stand there; and rows is none of the crates below this one.
fn write_padded(out: &mut [u8], tag: &[u8])
    requires { (length tag.now ≤ 32) × (64 ≤ length out.old) }
    ensures { out.new ≡ put out.old 24 (padded tag.now) }
{
    let n = tag.len();
    out[24..24 + n].copy_from_slice(tag);
    out[24 + n..56].fill(0);
}

// What a call reports: the number of a refusal, or 0; the index and the tag that a refusal carries, or the tag made; the number answered.
// Kept: a number for the code, 0 for none, since the C interface and the report's bytes have it so.
#[derive(Clone, Copy, Default)]
pub struct Report {
    pub code: u64,
    pub index: u64,
    pub tag: Tag,
    pub number: u64,
}

// Writes the report, where there is room for it.
pub fn write_report(out: &mut [u8], report: Report)
    ensures { out.new ≡ reported out.old (record { code = report.code; index = report.index; tag = bytes_of report.tag; number = report.number }) }
{
    if out.len() < 64 {
        return;
    }
    let bytes = report.tag.as_bytes();
    write_word(out, 0, report.code);
    write_word(out, 8, report.index);
    write_word(out, 16, bytes.len() as u64);
    write_padded(out, bytes);
    write_word(out, 56, report.number);
}
