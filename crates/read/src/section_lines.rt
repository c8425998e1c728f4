// Document 01, "Reading": the lines of the header section and of the content section, read one by one into a message
// that is held. Header lines are read by document 01's reader of a line, or by that of document 02, T-01.

ghost use Rattle.std.specs.Prelude.{◌≡◌, true, ◌≤◌, length};
ghost use Rattle.std.specs.Result.{result_unwrap_or};
ghost use Rattle.format.specs.Characters.{is_utf8};
ghost use Rattle.format.specs.Message.{Message};
ghost use Rattle.format.specs.Reading.{each, lines, read_header_line, read_content_line};
ghost use Rattle.format.specs.ReadingRfc.{line_reader};
ghost use Rattle.format.specs.Layout.{Holds};
ghost use Rattle.format.specs.Lending.{head_lent, lengths};
ghost use Rattle.format.specs.Told.{told};
ghost use Rattle.store_check.specs.Holding.{message_holds};
ghost use Rattle.message_edit.specs.Edits.{Does};
ghost use Rattle.read.specs.SectionLines.{LinesRead};

use format::{CpimMessage, Manner, Refusal};
use read_content_line::read_content_line;
use read_header_line::read_header_line;
use sections::{crlf_lines, cut_line};

// A line of the header section, read in its manner; an empty one is skipped.
fn header_line(
    manner: Manner,
    line: &[u8],
    m: CpimMessage,
    head: &mut [u8],
    params: &mut [u8],
) -> Result<CpimMessage, Refusal>
    requires held { message_holds m head.old ≡ true }
    requires text { is_utf8 line.now ≡ true }
    requires scratch { 3376 ≤ length params.old }
    ensures { (k : Message) → Holds (head_lent m head.old) k → Does (head_lent m head.old) (head_lent (result_unwrap_or result m) head.new) (told result) (read_header_line (line_reader manner) (lengths (head_lent m head.old)) line.now k) }
{
    if line.is_empty() {
        return Ok(m);
    }
    read_header_line(manner, line, m, head, params)
}

// The lines of the header section, up to the first that is refused.
pub fn read_headers(
    manner: Manner,
    section: &[u8],
    m: CpimMessage,
    head: &mut [u8],
    params: &mut [u8],
) -> Result<CpimMessage, Refusal>
    requires held { message_holds m head.old ≡ true }
    requires text { is_utf8 section.now ≡ true }
    requires scratch { 3376 ≤ length params.old }
    ensures { (k : Message) → Holds (head_lent m head.old) k → LinesRead (head_lent (result_unwrap_or result m) head.new) (told result) (each (read_header_line (line_reader manner) (lengths (head_lent m head.old))) (lines section.now) k) }
{
    let crlf = crlf_lines(section);
    let mut so_far = m;
    let mut at = 0;
    loop {
        let piece = cut_line(&section[at..], crlf);
        let end = at + piece.end;
        so_far = header_line(manner, &section[at..end], so_far, head, params)?;
        let Some(next) = piece.next else {
            return Ok(so_far);
        };
        at += next;
    }
}

// The lines of the content section in the same way.
pub fn read_contents(
    section: &[u8],
    m: CpimMessage,
    head: &mut [u8],
) -> Result<CpimMessage, Refusal>
    requires held { message_holds m head.old ≡ true }
    requires text { is_utf8 section.now ≡ true }
    ensures { (k : Message) → Holds (head_lent m head.old) k → LinesRead (head_lent (result_unwrap_or result m) head.new) (told result) (each (read_content_line (lengths (head_lent m head.old))) (lines section.now) k) }
{
    let crlf = crlf_lines(section);
    let mut so_far = m;
    let mut at = 0;
    loop {
        let line = cut_line(&section[at..], crlf);
        let end = at + line.end;
        so_far = read_content_line(&section[at..end], so_far, head)?;
        let Some(behind) = line.next else {
            return Ok(so_far);
        };
        at += behind;
    }
}
