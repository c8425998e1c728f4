// Document 01, "Reading": `parse_cpim`, and `parse_head`, which leaves the body where it stands. Document 02, T-01:
// `parse_cpim_rfc` and `parse_head_rfc`, the same with the second reader of a header line. A text is judged
// (`read_split`), its header lines and content lines are read into the head store (`section_lines`), and its body is
// measured, or by `parse_cpim` and `parse_cpim_rfc` laid into the body store: under LFLF it is joined there and then
// judged, under CRLFCRLF judged and then copied. A refused reading leaves zeros in what it is lent.

#![tactic(auto)]

mod section_lines;

ghost use Rattle.std.specs.Prelude.{◌≡◌, true, ◌≤◌, length, drop, Ok, IfOk};
ghost use Rattle.std.specs.Result.{result_unwrap_or};
ghost use Rattle.format.specs.Characters.{is_utf8};
ghost use Rattle.format.specs.Limits.{max_text};
ghost use Rattle.format.specs.Refusals.{accepted, numbers};
ghost use Rattle.format.specs.Reading.{blank, Parts, text_parts, read_with};
ghost use Rattle.format.specs.ReadingRfc.{read_header_rfc, line_reader};
ghost use Rattle.format.specs.Layout.{Holds, empty_message};
ghost use Rattle.format.specs.Lending.{head_lent, both_lent, lengths, ParsedWith, Parsed};
ghost use Rattle.format.specs.Told.{told};
ghost use Rattle.read_split.specs.TextJudged.{body_behind};
ghost use Rattle.read.specs.SectionLines.{LinesRead};
ghost use Rattle.read.specs.Heads.{read_head_with, message_in, HeadParsedWith, HeadParsed};
ghost use Rattle.read.specs.TextLines.{read_sections, read_lines_with, joined_over, copied_over, lines_message, BodyStands};

use crate::section_lines::{read_contents, read_headers};
use format::{CpimMessage, Manner, Refusal};
use octets::compare::says;
use octets::{copy_at, zero_fill};
use read_content_line::put_type;
use read_split::{Parted, body_len, judge};
use sections::bodies::join_body;
use store_check::MAX_BODY_SIZE;

// What a reading that leaves the body where it stands gives: the record, and where the body begins in the text, if it stands there.
#[derive(Clone, Copy)]
pub struct Head {
    pub message: CpimMessage,
    pub body: Option<usize>,
}

// What the lines of a text give, and where its body, which is still to be judged, stands: behind the place rest, as it is under
// CRLFCRLF, else in sections to be joined.
#[derive(Clone, Copy)]
struct Lines {
    message: CpimMessage,
    crlf: bool,
    rest: usize,
}

// What reading starts from: the type text/plain, no entry, an empty body.
fn start(head: &mut [u8]) -> CpimMessage
    requires { 256 ≤ length head.old }
    ensures { Holds (head_lent result head.new) blank }
{
    put_type(head, b"text/plain");
    CpimMessage {
        typelen: 10,
        headers: 0,
        headerlen: 0,
        contents: 0,
        contentlen: 0,
        bodylen: 0,
    }
}

// 3, 25 carrying 256, headers, content headers.
fn read_sections(
    manner: Manner,
    mime: &[u8],
    headers: &[u8],
    contents: &[u8],
    head: &mut [u8],
) -> Result<CpimMessage, Refusal>
    requires { (is_utf8 headers.now ≡ true) × (is_utf8 contents.now ≡ true) }
    ensures { LinesRead (head_lent (result_unwrap_or result empty_message) head.new) (told result) (read_sections (line_reader manner) mime.now headers.now contents.now (length head.old)) }
{
    if !says(mime, b"message/cpim") {
        return Err(Refusal::NoMessageCpim);
    }
    if head.len() < 256 {
        return Err(Refusal::NoRoom(256));
    }
    let m = start(head);
    let mut params = [0u8; 3376];
    let read = read_headers(manner, headers, m, head, &mut params)?;
    read_contents(contents, read, head)
}

// 1, 24, 2 before all others.
fn read_text(manner: Manner, text: &[u8], head: &mut [u8]) -> Result<Lines, Refusal>
    ensures read { LinesRead (head_lent (lines_message result) head.new) (told result) (read_lines_with (line_reader manner) text.now (length head.old)) }
    ensures body { IfOk result (λ l. (p : Parts) → text_parts text.now ≡ accepted p → BodyStands text.now l.crlf l.rest p.body) }
{
    let Parted { crlf, places } = judge(text)?;
    let message = read_sections(
        manner,
        &text[..places.end1],
        &text[places.start2..places.end2],
        &text[places.start3..places.end3],
        head,
    )?;
    Ok(Lines {
        message,
        crlf,
        rest: places.rest,
    })
}

// The body's length. Under LFLF its sections are joined over the store as they are counted, so that they are looked for once.
fn join_or_measure(text: &[u8], crlf: bool, rest: usize, store: &mut [u8]) -> usize
    requires { (rest ≤ length text.now) × (length text.now ≤ max_text) }
    ensures length { result ≡ length (body_behind crlf (drop rest text.now)) }
    ensures bytes { store.new ≡ joined_over crlf (drop rest text.now) store.old }
{
    if crlf {
        text.len() - rest
    } else {
        join_body(store, &text[rest..])
    }
}

// A body that stands in the text, over the store's first bytes; one that is joined is there already.
fn copy_body(text: &[u8], in_text: bool, rest: usize, store: &mut [u8])
    requires { (rest ≤ length text.now) × (length (body_behind in_text (drop rest text.now)) ≤ length store.old) }
    ensures { store.new ≡ copied_over in_text (drop rest text.now) store.old }
{
    if in_text {
        copy_at(store, 0, &text[rest..]);
    }
}

// A text read into a lent head store, whose bytes are free where it is refused.
fn read_head(manner: Manner, text: &[u8], head: &mut [u8]) -> Result<Head, Refusal>
    ensures answered { told result ≡ numbers (read_head_with (line_reader manner) text.now (length head.old)) }
    ensures read { IfOk result (λ h. HeadParsedWith (line_reader manner) text.now (head_lent empty_message head.old) (head_lent h.message head.new) (Ok h)) }
{
    let Lines {
        message,
        crlf,
        rest,
    } = read_text(manner, text, head)?;
    let n = body_len(text, crlf, rest);
    if MAX_BODY_SIZE < n {
        return Err(Refusal::BodyTooLong(n));
    }
    Ok(Head {
        message: CpimMessage {
            bodylen: n,
            ..message
        },
        body: if crlf { Some(rest) } else { None },
    })
}

// The same, and a refusal leaves zeros in the head store.
fn head_by(manner: Manner, text: &[u8], head: &mut [u8]) -> Result<Head, Refusal>
    ensures { HeadParsedWith (line_reader manner) text.now (head_lent empty_message head.old) (head_lent (message_in result) head.new) result }
{
    let read = read_head(manner, text, head);
    if read.is_err() {
        zero_fill(head);
    }
    read
}

// A text read into a lent head store, its body left in the text, or, under LFLF, only measured; 26 never comes. Refused, the head store
// is zeros.
pub fn parse_head(text: &[u8], head: &mut [u8]) -> Result<Head, Refusal>
    ensures { HeadParsed text.now (head_lent empty_message head.old) (head_lent (message_in result) head.new) result }
{
    head_by(Manner::Source, text, head)
}

// `parse_head` by the second reader of a header line.
pub fn parse_head_rfc(text: &[u8], head: &mut [u8]) -> Result<Head, Refusal>
    ensures { HeadParsedWith read_header_rfc text.now (head_lent empty_message head.old) (head_lent (message_in result) head.new) result }
{
    head_by(Manner::Rfc, text, head)
}

// A text read into lent stores, whose bytes are free where it is refused: so an LFLF body may be joined before it is judged.
fn read_both(
    manner: Manner,
    text: &[u8],
    head: &mut [u8],
    body: &mut [u8],
) -> Result<CpimMessage, Refusal>
    ensures answered { told result ≡ numbers (read_with (line_reader manner) text.now (lengths (both_lent empty_message head.old body.old))) }
    ensures read { IfOk result (λ m. ParsedWith (line_reader manner) text.now (both_lent empty_message head.old body.old) (both_lent m head.new body.new) (told result)) }
{
    let lines = read_text(manner, text, head)?;
    let len = join_or_measure(text, lines.crlf, lines.rest, body);
    if MAX_BODY_SIZE < len {
        return Err(Refusal::BodyTooLong(len));
    }
    if body.len() < len {
        return Err(Refusal::TooShort(len));
    }
    copy_body(text, lines.crlf, lines.rest, body);
    Ok(CpimMessage {
        bodylen: len,
        ..lines.message
    })
}

// The same, and a refusal leaves zeros in both stores.
fn parse_by(
    manner: Manner,
    text: &[u8],
    head: &mut [u8],
    body: &mut [u8],
) -> Result<CpimMessage, Refusal>
    ensures { ParsedWith (line_reader manner) text.now (both_lent empty_message head.old body.old) (both_lent (result_unwrap_or result empty_message) head.new body.new) (told result) }
{
    let done = read_both(manner, text, head, body);
    if done.is_err() {
        zero_fill(head);
        zero_fill(body);
    }
    done
}

// A text read into lent stores; refused, both stores are zeros.
pub fn parse_cpim(text: &[u8], head: &mut [u8], body: &mut [u8]) -> Result<CpimMessage, Refusal>
    ensures { Parsed text.now (both_lent empty_message head.old body.old) (both_lent (result_unwrap_or result empty_message) head.new body.new) (told result) }
{
    parse_by(Manner::Source, text, head, body)
}

// `parse_cpim` by the second reader of a header line.
pub fn parse_cpim_rfc(text: &[u8], head: &mut [u8], body: &mut [u8]) -> Result<CpimMessage, Refusal>
    ensures { ParsedWith read_header_rfc text.now (both_lent empty_message head.old body.old) (both_lent (result_unwrap_or result empty_message) head.new body.new) (told result) }
{
    parse_by(Manner::Rfc, text, head, body)
}
