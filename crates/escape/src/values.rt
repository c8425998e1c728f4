// Document 02, T-03: a header value as it is written in its line. White space that is no control character is written as `\u` where it
// is the first or the last character; the rest, as a rule all of the value, is escaped as any text.

ghost use Rattle.std.specs.Prelude.{◌≡◌, ◌+◌, ◌*◌, ◌^◌, ◌≤◌, ◌<◌, length, take, drop};
ghost use Rattle.format.specs.Bytes.{pasted};
ghost use Rattle.format.specs.Characters.{code_point};
ghost use Rattle.format.specs.Escaping.{unicode_escape, value_text};
ghost use Rattle.escape.specs.Values.{lost_text, Cuts, ascii_end, ascii_ends};

use crate::putting::put_unicode;
use crate::{escape_header_value, escaped_len};
use code_points::code_point;
use code_points::ends::{lost_back, lost_front};

// How many bytes such a character is written in; no bytes stand for none.
#[tactic(auto, using(crate::proofs::ValueParts::lost_none, crate::proofs::ValueParts::lost_six))]
fn lost_len(g: &[u8]) -> usize
    ensures { result ≡ length (lost_text g.now) }
{
    if g.is_empty() { 0 } else { 6 }
}

// Writes such a character.
fn put_lost(out: &mut [u8], at: usize, g: &[u8]) -> usize
    requires { at + 6 ≤ length out.old }
    ensures placed { result ≡ at + 6 }
    ensures wrote { out.new ≡ pasted at (unicode_escape (code_point g.now)) out.old }
{
    put_unicode(out, at, code_point(g));
    at + 6
}

// Writes the front that is cut off, or nothing.
fn put_front(out: &mut [u8], at: usize, v: &[u8], front: usize) -> usize
    requires { (front ≤ length v.now) × (at + length (lost_text (take front v.now)) ≤ length out.old) }
    ensures placed { result ≡ at + length (lost_text (take front v.now)) }
    ensures wrote { out.new ≡ pasted at (lost_text (take front v.now)) out.old }
{
    if front == 0 {
        return at;
    }
    put_lost(out, at, &v[..front])
}

// Writes the back that is cut off, or nothing.
fn put_back(out: &mut [u8], at: usize, v: &[u8], end: usize) -> usize
    requires { (end ≤ length v.now) × (at + length (lost_text (drop end v.now)) ≤ length out.old) }
    ensures placed { result ≡ at + length (lost_text (drop end v.now)) }
    ensures wrote { out.new ≡ pasted at (lost_text (drop end v.now)) out.old }
{
    if end == v.len() {
        return at;
    }
    put_lost(out, at, &v[end..])
}

// An ASCII character other than the space.
#[tactic(auto, unfolding(crate::specs::Values::ascii_end))]
fn ascii_end(b: u8) -> bool
    ensures { result ≡ ascii_end b }
{
    b != b' ' && b < 0x80
}

// Both ends are such, or there is none: nothing is cut off then, as with most values. The functions below ask this themselves, and not in
// `cut`, so that such a value does not cost a call of it.
#[tactic(auto, unfolding(crate::specs::Values::ascii_ends))]
fn ascii_ends(v: &[u8]) -> bool
    ensures { result ≡ ascii_ends v.now }
{
    v.is_empty() || (ascii_end(v[0]) && ascii_end(v[v.len() - 1]))
}

// Where the ends are cut off: behind the first `front` bytes, and at the place `end`.
#[derive(Clone, Copy)]
struct Ends {
    front: usize,
    end: usize,
}

// The last character is looked for behind the first, so that a value of one is written once.
fn cut(v: &[u8]) -> Ends
    ensures { Cuts v.now result.front result.end }
{
    let front = lost_front(v);
    let back = lost_back(&v[front..]);
    Ends {
        front,
        end: v.len() - back,
    }
}

// How many bytes the value is written in.
pub fn value_text_len(v: &[u8]) -> usize
    requires { 6 * length v.now < 2 ^ 64 }
    ensures { result ≡ length (value_text v.now) }
{
    let mut front = 0;
    let mut end = v.len();
    if !ascii_ends(v) {
        let ends = cut(v);
        front = ends.front;
        end = ends.end;
    }
    lost_len(&v[..front]) + escaped_len(&v[front..end]) + lost_len(&v[end..])
}

// Writes the value from the place at on, and gives the place behind it.
pub fn put_value_text(out: &mut [u8], at: usize, v: &[u8]) -> usize
    requires { at + length (value_text v.now) ≤ length out.old }
    ensures placed { result ≡ at + length (value_text v.now) }
    ensures wrote { out.new ≡ pasted at (value_text v.now) out.old }
{
    let mut front = 0;
    let mut end = v.len();
    if !ascii_ends(v) {
        let ends = cut(v);
        front = ends.front;
        end = ends.end;
    }
    let mut to = put_front(out, at, v, front);
    to = escape_header_value(out, to, &v[front..end]);
    put_back(out, to, v, end)
}
