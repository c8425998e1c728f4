// Document 01, "Writing": the parts of a text over the bytes of an output. Each function writes from a place on and gives the place behind
// what it wrote. The headers' and content headers' lines are in `lines`; `measure` says how long a text is before it is written.

#![tactic(auto)]

pub mod lines;
pub mod measure;

ghost use Rattle.std.specs.Prelude.{◌≡◌, true, ◌++◌, ◌+◌, ◌≤◌, length};
ghost use Rattle.format.specs.Bytes.{crlf_text, pasted, texts};
ghost use Rattle.format.specs.Characters.{replaced};
ghost use Rattle.format.specs.Writing.{first_line, type_line, content_line, ended};
ghost use Rattle.characters.specs.Lengths.{utf8_end};
ghost use Rattle.store_entries.specs.Stored.{shaped_all};
ghost use Rattle.store_entry_check.specs.FromBytes.{entries_from};

use crate::lines::put_content_lines;
use output::put;

// The first line, and a blank one.
pub fn put_first_at(out: &mut [u8], at: usize) -> usize
    requires { at + length (ended first_line ++ crlf_text) ≤ length out.old }
    ensures place { result ≡ at + length (ended first_line ++ crlf_text) }
    ensures bytes { out.new ≡ pasted at (ended first_line ++ crlf_text) out.old }
{
    put(out, at, b"Content-type: Message/CPIM\r\n\r\n")
}

// A blank line.
pub fn put_blank_at(out: &mut [u8], at: usize) -> usize
    requires { at + length crlf_text ≤ length out.old }
    ensures place { result ≡ at + length crlf_text }
    ensures bytes { out.new ≡ pasted at crlf_text out.old }
{
    put(out, at, b"\r\n")
}

// A blank line, the type's, and those of count content headers.
pub fn put_content_part_at(out: &mut [u8], at: usize, kind: &[u8], s: &[u8], count: usize) -> usize
    requires { (shaped_all count s.now ≡ true) × (at + length (crlf_text ++ (ended (type_line kind.now) ++ texts (λ e. ended (content_line e)) (entries_from count s.now))) ≤ length out.old) }
    ensures place { result ≡ at + length (crlf_text ++ (ended (type_line kind.now) ++ texts (λ e. ended (content_line e)) (entries_from count s.now))) }
    ensures bytes { out.new ≡ pasted at (crlf_text ++ (ended (type_line kind.now) ++ texts (λ e. ended (content_line e)) (entries_from count s.now))) out.old }
{
    let mut to = put(out, at, b"\r\nContent-type: ");
    to = put(out, to, kind);
    to = put(out, to, b"\r\n");
    put_content_lines(out, to, s, count)
}

// A body, of which all up to `end` is UTF-8: where that is all of it, it is copied at once.
pub fn put_body_at(out: &mut [u8], at: usize, body: &[u8], end: usize) -> usize
    requires { (end ≡ utf8_end body.now 0) × (at + length (replaced body.now) ≤ length out.old) }
    ensures place { result ≡ at + length (replaced body.now) }
    ensures bytes { out.new ≡ pasted at (replaced body.now) out.old }
{
    if end == body.len() {
        return put(out, at, body);
    }
    utf8::replace::put_replaced(out, at, body)
}
