// The ends of a text, its first and its last character: whether white space stands there (demand 3), and how many bytes of white space
// that is no control character, which trimming would take from a header value.

ghost use Rattle.std.specs.Prelude.{◌≡◌};
ghost use Rattle.format.specs.Characters.{chars, is_white, is_lost, clear_ends};
ghost use Rattle.code_points.specs.Ends.{lost_lead, lost_front, lost_back};

use crate::edges::{back, front};
use crate::trimming::trim;
use crate::{is_control, is_white};

// Neither end is white space.
pub fn clear_ends(s: &[u8]) -> bool
    ensures { result ≡ clear_ends is_white s.now }
{
    trim(s).len() == s.len()
}

// A byte that such a character begins with.
#[tactic(auto, using(crate::proofs::WhiteTests::leads))]
fn lost_lead(b: u8) -> bool
    ensures { result ≡ lost_lead b }
{
    matches!(b, 0x20 | 0xC2 | 0xE1..=0xE3)
}

// White space that is no control character; most characters are told from it by their first byte.
#[tactic(auto, using(crate::proofs::WhiteTests::losts))]
fn is_lost(g: &[u8]) -> bool
    ensures { result ≡ is_lost g.now }
{
    match g.first() {
        Some(b) if lost_lead(*b) => is_white(g) && !is_control(g),
        _ => false,
    }
}

// How many bytes the first character has where it is such, else 0.
pub fn lost_front(s: &[u8]) -> usize
    ensures { result ≡ lost_front (chars s.now) }
{
    front(s, is_lost).unwrap_or(0)
}

// The same of the last character.
pub fn lost_back(s: &[u8]) -> usize
    ensures { result ≡ lost_back (chars s.now) }
{
    back(s, is_lost).unwrap_or(0)
}
