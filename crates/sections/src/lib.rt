// Document 01, "Reading": a text cut at its first separator, its first three sections, a section's lines. "The rest of the
// text after it is searched on": the part of the text that starts past a separator is handed to the search (`search`). `bodies` joins an
// LFLF body, `fields` takes a line apart.

#![tactic(auto)]

pub mod bodies;
pub mod fields;
pub mod search;

ghost use Rattle.std.specs.Prelude.{◌≡◌, ◌<◌, length};
ghost use Rattle.format.specs.Bytes.{crlf_text, crlf_crlf_text, occurs, pieces, split};
ghost use Rattle.format.specs.Reading.{parts_of};
ghost use Rattle.sections.specs.Cuts.{cut_of, line_end_for, separator_for, places_of, parts_at};

use crate::search::find;

// The first piece of a text: its bytes are those before end, and next is the place behind the separator, if there is one.
#[derive(Clone, Copy)]
pub struct Piece {
    pub end: usize,
    pub next: Option<usize>,
}

// The first three sections: 0 to end1, start2 to end2, start3 to end3; the others are those of the text from rest on.
#[derive(Clone, Copy)]
pub struct Places {
    pub end1: usize,
    pub start2: usize,
    pub end2: usize,
    pub start3: usize,
    pub end3: usize,
    pub rest: usize,
}

// "The separator is CRLFCRLF if it occurs anywhere, else LFLF": true for CRLFCRLF.
pub fn crlf_sections(text: &[u8]) -> bool
    ensures { result ≡ occurs crlf_crlf_text text.now }
{
    find(text, b"\r\n\r\n") < text.len()
}

// "Lines end in CRLF if the section has one, else LF": true for CRLF.
pub fn crlf_lines(section: &[u8]) -> bool
    ensures { result ≡ occurs crlf_text section.now }
{
    find(section, b"\r\n") < section.len()
}

// The first piece of the text, split at a separator that is not empty.
pub fn cut(text: &[u8], pattern: &[u8]) -> Piece
    requires { 0 < length pattern.now }
    ensures { result ≡ cut_of pattern.now text.now }
{
    let end = find(text, pattern);
    if end == text.len() {
        return Piece { end, next: None };
    }
    Piece {
        end,
        next: Some(end + pattern.len()),
    }
}

// The first line of what is left of a section.
pub fn cut_line(text: &[u8], crlf: bool) -> Piece
    ensures { result ≡ cut_of (line_end_for crlf) text.now }
{
    cut(text, if crlf { b"\r\n" } else { b"\n" })
}

// The first section of what is left of a text.
pub fn cut_section(text: &[u8], crlf: bool) -> Piece
    ensures { result ≡ cut_of (separator_for crlf) text.now }
{
    cut(text, if crlf { b"\r\n\r\n" } else { b"\n\n" })
}

// The first three sections, and where the fourth starts; there are none of these where there are fewer than 4, and 2 is due.
pub fn first_three(text: &[u8], crlf: bool) -> Option<Places>
    ensures places { result ≡ places_of (separator_for crlf) text.now }
    ensures parts { parts_at (separator_for crlf) text.now result ≡ parts_of (pieces (split (separator_for crlf) text.now)) }
{
    let one = cut_section(text, crlf);
    let start2 = one.next?;
    let two = cut_section(&text[start2..], crlf);
    let start3 = start2 + two.next?;
    let three = cut_section(&text[start3..], crlf);
    let rest = start3 + three.next?;
    Some(Places {
        end1: one.end,
        start2,
        end2: start2 + two.end,
        start3,
        end3: start3 + three.end,
        rest,
    })
}
