// Document 01, "Writing": the lines of headers and of content headers, from the store over the bytes of an output. Each function writes
// from a place on and gives the place behind what it wrote.

ghost use Rattle.std.specs.Prelude.{◌≡◌, true, ◌+◌, ◌≤◌, length, drop};
ghost use Rattle.format.specs.Bytes.{pasted, texts};
ghost use Rattle.format.specs.Writing.{param_text, header_line, content_line, ended};
ghost use Rattle.store_entries.specs.Stored.{shaped, stored_in, shaped_all};
ghost use Rattle.store_entry_check.specs.EntriesHold.{tail_holds, headers_hold};
ghost use Rattle.store_entry_check.specs.FromBytes.{entry_from, entries_from, header_from, headers_from};

use escape::values::put_value_text;
use output::{put, put_byte};
use store_entries::{entry_len, name_at, param_count, tail_at, value_at};

// The parameter at a place of the store: `;` name `=` value.
fn put_param_text(out: &mut [u8], at: usize, s: &[u8], from: usize) -> usize
    requires { (shaped (drop from s.now) ≡ true) × (at + length (param_text (entry_from (stored_in (drop from s.now)))) ≤ length out.old) }
    ensures place { result ≡ at + length (param_text (entry_from (stored_in (drop from s.now)))) }
    ensures bytes { out.new ≡ pasted at (param_text (entry_from (stored_in (drop from s.now)))) out.old }
{
    let name = name_at(s, from);
    let value = value_at(s, from);
    let mut to = put_byte(out, at, b';');
    to = put(out, to, name);
    to = put_byte(out, to, b'=');
    put(out, to, value)
}

// All of them.
fn put_param_texts(out: &mut [u8], at: usize, s: &[u8], count: usize) -> usize
    requires { (shaped_all count s.now ≡ true) × (at + length (texts param_text (entries_from count s.now)) ≤ length out.old) }
    ensures place { result ≡ at + length (texts param_text (entries_from count s.now)) }
    ensures bytes { out.new ≡ pasted at (texts param_text (entries_from count s.now)) out.old }
{
    let mut to = at;
    let mut from = 0;
    for _ in 0..count {
        to = put_param_text(out, to, s, from);
        from += entry_len(s, from);
    }
    to
}

// The header at a place: name, `:`, the parameters, a space, the value, CRLF.
fn put_header_line(out: &mut [u8], at: usize, s: &[u8], from: usize) -> usize
    requires { (shaped (drop from s.now) ≡ true) × (tail_holds (stored_in (drop from s.now)) ≡ true) × (at + length (ended (header_line (header_from (stored_in (drop from s.now))))) ≤ length out.old) }
    ensures place { result ≡ at + length (ended (header_line (header_from (stored_in (drop from s.now))))) }
    ensures bytes { out.new ≡ pasted at (ended (header_line (header_from (stored_in (drop from s.now))))) out.old }
{
    let name = name_at(s, from);
    let value = value_at(s, from);
    let tail = tail_at(s, from);
    let count = param_count(s, from);
    let mut to = put(out, at, name);
    to = put_byte(out, to, b':');
    to = put_param_texts(out, to, tail, count);
    to = put_byte(out, to, b' ');
    to = put_value_text(out, to, value);
    put(out, to, b"\r\n")
}

// All of them.
pub fn put_header_lines(out: &mut [u8], at: usize, s: &[u8], count: usize) -> usize
    requires { (headers_hold count s.now ≡ true) × (at + length (texts (λ h. ended (header_line h)) (headers_from count s.now)) ≤ length out.old) }
    ensures place { result ≡ at + length (texts (λ h. ended (header_line h)) (headers_from count s.now)) }
    ensures bytes { out.new ≡ pasted at (texts (λ h. ended (header_line h)) (headers_from count s.now)) out.old }
{
    let mut to = at;
    let mut from = 0;
    for _ in 0..count {
        to = put_header_line(out, to, s, from);
        from += entry_len(s, from);
    }
    to
}

// The content header at a place: name, `: `, value, CRLF.
fn put_content_line(out: &mut [u8], at: usize, s: &[u8], from: usize) -> usize
    requires { (shaped (drop from s.now) ≡ true) × (at + length (ended (content_line (entry_from (stored_in (drop from s.now))))) ≤ length out.old) }
    ensures place { result ≡ at + length (ended (content_line (entry_from (stored_in (drop from s.now))))) }
    ensures bytes { out.new ≡ pasted at (ended (content_line (entry_from (stored_in (drop from s.now))))) out.old }
{
    let name = name_at(s, from);
    let value = value_at(s, from);
    let mut to = put(out, at, name);
    to = put(out, to, b": ");
    to = put(out, to, value);
    put(out, to, b"\r\n")
}

// All of them.
pub fn put_content_lines(out: &mut [u8], at: usize, s: &[u8], count: usize) -> usize
    requires { (shaped_all count s.now ≡ true) × (at + length (texts (λ e. ended (content_line e)) (entries_from count s.now)) ≤ length out.old) }
    ensures place { result ≡ at + length (texts (λ e. ended (content_line e)) (entries_from count s.now)) }
    ensures bytes { out.new ≡ pasted at (texts (λ e. ended (content_line e)) (entries_from count s.now)) out.old }
{
    let mut to = at;
    let mut from = 0;
    for _ in 0..count {
        to = put_content_line(out, to, s, from);
        from += entry_len(s, from);
    }
    to
}
