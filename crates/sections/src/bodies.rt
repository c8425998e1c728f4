// Document 01, "Reading": the body of a text whose separator is LFLF, "sections from the fourth, joined by CRLFCRLF": its
// length, and its bytes, copied section by section into parts of a store that stand one behind another.

ghost use Rattle.std.specs.Prelude.{◌≡◌, ◌+◌, ◌≤◌, length, if◌then◌else◌};
ghost use Rattle.format.specs.Bytes.{lf_lf_text, pieces, split};
ghost use Rattle.format.specs.Limits.{max_text};
ghost use Rattle.sections.specs.Body.{joined, led, body_parts, filled};

use crate::cut;
use octets::copy_at;

// How many bytes the sections of the rest take, joined.
#[tactic(auto, using(crate::proofs::Joining::left_last, crate::proofs::Joining::joined_bound))]
pub fn joined_len(rest: &[u8]) -> usize
    requires { length rest.now ≤ max_text }
    ensures { result ≡ length (joined rest.now) }
{
    let mut len: usize = 0;
    let mut at: usize = 0;
    loop {
        let piece = cut(&rest[at..], b"\n\n");
        let Some(next) = piece.next else {
            return len + piece.end;
        };
        len += piece.end + 4;
        at += next;
    }
}

// n bytes, and four more where CRLFCRLF stands ahead of them.
fn led_len(n: usize, ahead: bool) -> usize
    requires { n ≤ max_text }
    ensures { result ≡ (if ahead then 4 else 0) + n }
{
    if ahead { 4 + n } else { n }
}

// A step of the joining: one section, with CRLFCRLF ahead of it where another stands before it, over all of the part that is lent for it.
// Behind CRLFCRLF an empty section, as between four LF, is passed over: `copy_at` calls `memcpy` for no bytes too (1 KiB of nothing but LF takes
// 72,296 instructions for 83,044).
fn fill_section(part: &mut [u8], section: &[u8], ahead: bool)
    requires { length part.old ≡ length (led ahead section.now) }
    ensures { part.new ≡ led ahead section.now }
{
    if ahead {
        copy_at(part, 0, b"\r\n\r\n");
        if section.is_empty() {
            return;
        }
        copy_at(part, 4, section);
        return;
    }
    copy_at(part, 0, section);
}

// The sections of the rest, joined, over the first bytes of out, and how many bytes all of them take. The first part that does
// not fit ends the copying: what stands behind it is only measured.
pub fn join_body(out: &mut [u8], rest: &[u8]) -> usize
    requires { length rest.now ≤ max_text }
    ensures length { result ≡ length (joined rest.now) }
    ensures bytes { out.new ≡ filled 0 (body_parts (pieces (split lf_lf_text rest.now))) out.old }
{
    let mut to: usize = 0;
    let mut from: usize = 0;
    let mut ahead = false;
    loop {
        let piece = cut(&rest[from..], b"\n\n");
        let n = led_len(piece.end, ahead);
        if out.len() - to < n {
            let Some(next) = piece.next else {
                return to + n;
            };
            let behind = from + next;
            return to + n + 4 + joined_len(&rest[behind..]);
        }
        let end = to + n;
        let stop = from + piece.end;
        fill_section(&mut out[to..end], &rest[from..stop], ahead);
        let Some(next) = piece.next else {
            return end;
        };
        to = end;
        from += next;
        ahead = true;
    }
}
