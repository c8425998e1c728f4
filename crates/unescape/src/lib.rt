// Document 01, "Escaping", and document 02, T-01: a header value as it is read in either manner, in two steps: the length, for which the caller
// lends the room, and the bytes. The stretches between backslashes are read as they are, and each escape as the character
// that it stands for.

#![tactic(auto)]

mod backslash;
mod coding;
mod digits;

ghost use Rattle.std.specs.Prelude.{◌≡◌, true, ◌+◌, ◌≤◌, length, is_some};
ghost use Rattle.format.specs.Bytes.{up_to, pasted};
ghost use Rattle.format.specs.Escaping.{unescape_by};
ghost use Rattle.unescape.specs.Reads.{measured, value_of};

use crate::backslash::{Escape, escape_at};
use crate::coding::{code_len, put_code};
use format::Manner;
use octets::copy_at;
use octets::finding::find_byte;

// Where the next backslash stands, or the length where there is none. One that comes first, as where escape follows escape, is seen at once: to
// look for it in blocks takes 5.0 for 3.5 ns an escape in `unescaped_len`.
#[tactic(auto, unfolding(format::specs::Bytes::up_to))]
fn next_backslash(s: &[u8]) -> usize
    ensures { result ≡ length (up_to 92 s.now) }
{
    match s {
        [b'\\', ..] => 0,
        _ => find_byte(s, b'\\'),
    }
}

// How long what the text reads as is, where it reads.
pub fn unescaped_len(manner: Manner, s: &[u8]) -> Option<usize>
    ensures { result ≡ measured (unescape_by manner s.now) }
{
    let mut n = 0;
    let mut rest = s;
    loop {
        let (plain, found) = rest.split_at(next_backslash(rest));
        n += plain.len();
        let [_, behind @ ..] = found else {
            return Some(n);
        };
        let Escape { code, takes } = escape_at(manner, behind)?;
        n += code_len(code);
        rest = &behind[takes as usize..];
    }
}

// A stretch, as it is. One of no bytes, as where escape follows escape, is not copied: `copy_at` calls `memmove` for it too, which takes 59 for
// 34 instructions an escape.
fn put_plain(out: &mut [u8], at: usize, plain: &[u8])
    requires { at + length plain.now ≤ length out.old }
    ensures { out.new ≡ pasted at plain.now out.old }
{
    if !plain.is_empty() {
        copy_at(out, at, plain);
    }
}

// Writes what the text reads as from the place at on, and gives the place behind it.
pub fn unescape_header_value(manner: Manner, out: &mut [u8], at: usize, s: &[u8]) -> usize
    requires reads { is_some (measured (unescape_by manner s.now)) ≡ true }
    requires fits { at + length (value_of (unescape_by manner s.now)) ≤ length out.old }
    ensures placed { result ≡ at + length (value_of (unescape_by manner s.now)) }
    ensures wrote { out.new ≡ pasted at (value_of (unescape_by manner s.now)) out.old }
{
    let mut to = at;
    let mut rest = s;
    loop {
        let (plain, found) = rest.split_at(next_backslash(rest));
        put_plain(out, to, plain);
        to += plain.len();
        let [_, behind @ ..] = found else {
            return to;
        };
        let Some(Escape { code, takes }) = escape_at(manner, behind) else {
            return to;
        };
        to += put_code(out, to, code);
        rest = &behind[takes as usize..];
    }
}
