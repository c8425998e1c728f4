// Document 01, "Escaping": a text as it is escaped, in two steps: the length, for which the caller lends the room, and the bytes. A header
// value in its line, whose ends are written otherwise, is in the module `values`. A place moves on by what a form takes, one byte or two: a `for`
// over bytes would have to pass one over.

#![tactic(auto)]

mod bare;
mod forms;
mod putting;
pub mod values;

ghost use Rattle.std.specs.Prelude.{◌≡◌, ◌+◌, ◌*◌, ◌^◌, ◌≤◌, ◌<◌, length};
ghost use Rattle.format.specs.Bytes.{pasted};
ghost use Rattle.format.specs.Escaping.{escape};

use crate::bare::bare_text;
use crate::forms::{form_at, takes, width};
use crate::putting::put_form;
use octets::copy_at;

// How many bytes the value is written in.
pub fn escaped_len(v: &[u8]) -> usize
    requires { 6 * length v.now < 2 ^ 64 }
    ensures { result ≡ length (escape v.now) }
{
    if bare_text(v) {
        return v.len();
    }
    let mut n = 0;
    let mut i = 0;
    while i < v.len() {
        let f = form_at(v, i);
        n += width(f);
        i += takes(f);
    }
    n
}

// Writes the value from the place at on, and gives the place behind it.
pub fn escape_header_value(out: &mut [u8], at: usize, v: &[u8]) -> usize
    requires { at + length (escape v.now) ≤ length out.old }
    ensures placed { result ≡ at + length (escape v.now) }
    ensures wrote { out.new ≡ pasted at (escape v.now) out.old }
{
    if bare_text(v) {
        copy_at(out, at, v);
        return at + v.len();
    }
    let mut to = at;
    let mut i = 0;
    while i < v.len() {
        let f = form_at(v, i);
        put_form(out, to, f);
        to += width(f);
        i += takes(f);
    }
    to
}
