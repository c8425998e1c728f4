// Document 01, "Writing": how long a text is, known before its first byte is written. Only the header values and the body are looked at:
// the store says how long the other parts are.

ghost use Rattle.std.specs.Prelude.{◌≡◌, true, [], ◌≤◌, ◌<◌, length, drop};
ghost use Rattle.format.specs.Bytes.{texts};
ghost use Rattle.format.specs.Characters.{replaced};
ghost use Rattle.format.specs.Limits.{max_headers, max_body};
ghost use Rattle.format.specs.Writing.{param_text, header_line, content_line, ended, write};
ghost use Rattle.characters.specs.Lengths.{utf8_end};
ghost use Rattle.store_entries.specs.Stored.{shaped, stored_in};
ghost use Rattle.store_entry_check.specs.EntriesHold.{fits, entries_hold, tail_holds, headers_hold};
ghost use Rattle.store_check.specs.Holding.{message_holds};
ghost use Rattle.store_entry_check.specs.FromBytes.{entries_from, header_from, headers_from};
ghost use Rattle.store_check.specs.Decoding.{message_in};
ghost use Rattle.store_entry_check.specs.declared.kinds.Kind.TheVariants as kind;

use escape::values::value_text_len;
use format::CpimMessage;
use store_entries::{entry_len, name_len, param_count, tail_len, value_at};

// The parameters of the header at a place: `;` and `=` for the 16 bytes of numbers of each.
fn params_len(s: &[u8], at: usize) -> usize
    requires { (shaped (drop at s.now) ≡ true) × (tail_holds (stored_in (drop at s.now)) ≡ true) }
    ensures { (result ≡ length (texts param_text (header_from (stored_in (drop at s.now))).params)) × (result < 65536) }
{
    tail_len(s, at) - 14 * param_count(s, at)
}

// Its line: `:`, a space and CRLF beside name, parameters and the value as it is written.
fn header_len(s: &[u8], at: usize) -> usize
    requires { (shaped (drop at s.now) ≡ true) × (fits kind.Header (stored_in (drop at s.now)) ≡ true) × (tail_holds (stored_in (drop at s.now)) ≡ true) }
    ensures { (result ≡ length (ended (header_line (header_from (stored_in (drop at s.now)))))) × (result < 131072) }
{
    name_len(s, at) + params_len(s, at) + value_text_len(value_at(s, at)) + 4
}

// The lines of all headers.
pub fn headers_len(s: &[u8], count: usize) -> usize
    requires { (headers_hold count s.now ≡ true) × (count ≤ max_headers) }
    ensures { (result ≡ length (texts (λ h. ended (header_line h)) (headers_from count s.now))) × (result < 6553601) }
{
    let mut at = 0;
    let mut n = 0;
    for _ in 0..count {
        n += header_len(s, at);
        at += entry_len(s, at);
    }
    n
}

// The lines of all content headers: `: ` and CRLF for the 16 bytes of numbers of each.
pub fn contents_len(s: &[u8], count: usize) -> usize
    requires { entries_hold kind.Content count [] s.now ≡ true }
    ensures { result ≡ length (texts (λ e. ended (content_line e)) (entries_from count s.now)) }
{
    s.len() - 12 * count
}

// A body, of which all up to `end` is UTF-8: where that is all of it, it is written as it is.
pub fn body_text_len(body: &[u8], end: usize) -> usize
    requires { (end ≡ utf8_end body.now 0) × (length body.now ≤ max_body) }
    ensures { (result ≡ length (replaced body.now)) × (result < 31457281) }
{
    if end == body.len() {
        return end;
    }
    utf8::replace::replaced_len(body)
}

// The text of the message with this body.
pub fn text_len(m: CpimMessage, head: &[u8], body: &[u8], end: usize) -> usize
    requires { (message_holds m head.now ≡ true) × (end ≡ utf8_end body.now 0) × (length body.now ≤ max_body) }
    ensures { result ≡ length (write (message_in m head.now body.now)) }
{
    let from = 256 + m.headerlen;
    let to = from + m.contentlen;
    let headers = headers_len(&head[256..from], m.headers);
    let contents = contents_len(&head[from..to], m.contents);
    50 + m.typelen + headers + contents + body_text_len(body, end)
}
