// Document 01, "Reading": a text judged by 1, 24 and 2, and its parts by their places. "Looking up": the body without a store, in two
// calls.

#![tactic(auto)]

ghost use Rattle.std.specs.Prelude.{◌≡◌, ◌≤◌, length, drop};
ghost use Rattle.std.specs.Option.{unwrap_or};
ghost use Rattle.std.specs.Result.{result_unwrap_or};
ghost use Rattle.format.specs.Limits.{max_text};
ghost use Rattle.format.specs.Refusals.{numbers};
ghost use Rattle.format.specs.LookingUp.{find_body, body_length_of, buffer_after, body_part};
ghost use Rattle.format.specs.Told.{told};
ghost use Rattle.read_split.specs.BodyPlaces.{nowhere, PlaceIs};
ghost use Rattle.read_split.specs.TextJudged.{Judged, body_behind};

use format::Refusal;
use sections::bodies::{join_body, joined_len};
use sections::{Places, crlf_sections, first_three};
use store_check::MAX_BODY_SIZE;
use utf8::is_utf8;

pub const MAX_PARSE_SIZE: usize = 20971520;

// A text that neither 1 nor 24 nor 2 applies to: whether its separator is CRLFCRLF, and the places of its first three sections.
#[derive(Clone, Copy)]
pub struct Parted {
    pub crlf: bool,
    pub places: Places,
}

// Where the second call's part stands: whether in the text, else in the buffer; where it begins, and its length. As it is C's record too,
// it is no enum.
#[repr(C)]
#[derive(Clone, Copy)]
pub struct BodyPlace {
    pub in_text: bool,
    pub start: usize,
    pub length: usize,
}

// 1, then 24, then 2.
pub fn judge(text: &[u8]) -> Result<Parted, Refusal>
    ensures { Judged text.now result }
{
    if MAX_PARSE_SIZE < text.len() {
        return Err(Refusal::TextTooLong(text.len()));
    }
    if !is_utf8(text) {
        return Err(Refusal::NotUtf8);
    }
    let crlf = crlf_sections(text);
    match first_three(text, crlf) {
        Some(places) => Ok(Parted { crlf, places }),
        None => Err(Refusal::TooFewSections),
    }
}

// The length of the body, which is the text from a place on, or its sections joined.
pub fn body_len(text: &[u8], crlf: bool, rest: usize) -> usize
    requires { (rest ≤ length text.now) × (length text.now ≤ max_text) }
    ensures { result ≡ length (body_behind crlf (drop rest text.now)) }
{
    if crlf {
        return text.len() - rest;
    }
    joined_len(&text[rest..])
}

// The body's length: 1, 24, 2, 23, then 26 under LFLF, where the body is written to the buffer's start.
pub fn read_body(text: &[u8], buffer: &mut [u8]) -> Result<usize, Refusal>
    ensures answered { told result ≡ numbers (find_body text.now (length buffer.old)) }
    ensures length { result_unwrap_or result 0 ≡ body_length_of (find_body text.now (length buffer.old)) }
    ensures written { buffer.new ≡ buffer_after text.now buffer.old }
{
    let parted = judge(text)?;
    let rest = parted.places.rest;
    let n = body_len(text, parted.crlf, rest);
    if MAX_BODY_SIZE < n {
        return Err(Refusal::BodyTooLong(n));
    }
    if parted.crlf {
        return Ok(n);
    }
    if buffer.len() < n {
        return Err(Refusal::TooShort(n));
    }
    join_body(buffer, &text[rest..]);
    Ok(n)
}

// The place of the empty part that is given where there is no body.
pub fn nowhere() -> BodyPlace
    ensures { result ≡ nowhere }
{
    BodyPlace {
        in_text: false,
        start: 0,
        length: 0,
    }
}

// Where the part stands that the second call gives: judged by 1, 24, 2 and 23, then under LFLF by the length. There is no body where
// one of these applies.
pub fn body_place(text: &[u8], buffer: &[u8], len: usize) -> Option<BodyPlace>
    ensures { PlaceIs text.now buffer.now len (unwrap_or result nowhere) }
{
    let Ok(parted) = judge(text) else {
        return None;
    };
    let rest = parted.places.rest;
    if MAX_BODY_SIZE < body_len(text, parted.crlf, rest) {
        return None;
    }
    if parted.crlf {
        return Some(BodyPlace {
            in_text: true,
            start: rest,
            length: text.len() - rest,
        });
    }
    if buffer.len() < len {
        return None;
    }
    Some(BodyPlace {
        in_text: false,
        start: 0,
        length: len,
    })
}

// Part of the text under CRLFCRLF, part of the buffer under LFLF: its first bytes, so many.
pub fn body_part<'a>(text: &'a [u8], buffer: &'a [u8], len: usize) -> &'a [u8]
    ensures { result.now ≡ body_part text.now buffer.now len }
{
    let place = body_place(text, buffer, len).unwrap_or(nowhere());
    let start = place.start;
    let end = start + place.length;
    if place.in_text {
        return &text[start..end];
    }
    &buffer[start..end]
}
