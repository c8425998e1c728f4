// UTF-8 over whole texts: by blocks as far as they go (`blocks`, `soundness`), and characters one by one elsewhere; `replace` puts U+FFFD
// for what is ill-formed. A place moves on by a character or by the blocks that could be passed, so no `for` over bytes does it.

#![tactic(auto)]

mod blocks;
pub mod replace;
mod soundness;

ghost use Rattle.std.specs.Prelude.{◌≡◌, ◌≤◌, length};
ghost use Rattle.format.specs.Characters.{is_utf8};
ghost use Rattle.characters.specs.Lengths.{utf8_end};
ghost use Rattle.utf8.specs.CharsEnd.{part_end, chars_end};

use crate::blocks::{largest, past_blocks};

// Passes over characters, one by one, until one ends at `stop` or behind it, or an ill-formed subpart stands there.
fn past_chars(s: &[u8], from: usize, stop: usize) -> usize
    requires { (from ≤ length s.now) × (stop ≤ length s.now) }
    ensures { result ≡ chars_end s.now from stop }
{
    let mut at = from;
    while at < stop {
        let n = characters::char_len(s, at);
        if n == 0 {
            return at;
        }
        at += n;
    }
    at
}

// The same where all up to `stop` may be ASCII.
fn past_part(s: &[u8], from: usize, stop: usize) -> usize
    requires { (from ≤ stop) × (stop ≤ length s.now) }
    ensures { result ≡ chars_end s.now from stop }
{
    let part = &s[from..stop];
    if largest(part) < 0x80 {
        return stop;
    }
    past_chars(s, from, stop)
}

// The end of the block of 64 bytes that starts at a place; the text's end where it is nearer.
fn block_end(s: &[u8], at: usize) -> usize
    requires { at ≤ length s.now }
    ensures { result ≡ part_end s.now at }
{
    if s.len() - at < 64 { s.len() } else { at + 64 }
}

// The place where UTF-8 ends, going from a place on: that of the first ill-formed subpart, or the text's end.
pub fn utf8_end(s: &[u8], from: usize) -> usize
    ensures { result ≡ utf8_end s.now from }
{
    let mut at = from;
    while at < s.len() {
        let run = past_blocks(s, at);
        let stop = block_end(s, run);
        let end = past_part(s, run, stop);
        if end < stop {
            return end;
        }
        at = end;
    }
    at
}

// Of a short text the largest byte is looked at first: most are ASCII, and this much is compiled into the caller.
pub fn is_utf8(s: &[u8]) -> bool
    ensures { result ≡ is_utf8 s.now }
{
    if s.len() < 64 && largest(s) < 0x80 {
        return true;
    }
    utf8_end(s, 0) == s.len()
}
