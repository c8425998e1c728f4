// Trimming: white space stripped from both ends of a text, a character at a time (document 01, "Characters").
ghost use Rattle.std.specs.Prelude.{◌≡◌, ◌≤◌, length, take, drop};
ghost use Rattle.format.specs.Characters.{chars, is_white, drop_front, drop_back, flat, trim};

use crate::edges::{back, front};
use crate::is_white;

// The place of the first character that is not white space.
fn front_end(s: &[u8]) -> usize
    ensures { (result ≤ length s.now) × (drop_front is_white (chars s.now) ≡ chars (drop result s.now)) }
{
    let mut at = 0;
    while let Some(n) = front(&s[at..], is_white) {
        at += n;
    }
    at
}

// The place behind the last character that is not white space.
fn back_end(s: &[u8]) -> usize
    ensures { (result ≤ length s.now) × (flat (drop_back is_white (chars s.now)) ≡ take result s.now) }
{
    let mut end = s.len();
    while let Some(n) = back(&s[..end], is_white) {
        end -= n;
    }
    end
}

// The text without white space at either end.
pub fn trim<'a>(s: &'a [u8]) -> &'a [u8]
    ensures { result.now ≡ trim s.now }
{
    let from = front_end(s);
    let end = from + back_end(&s[from..]);
    &s[from..end]
}
