// Bytes and texts over the bytes of an output, from a place on; each function gives the place behind what it wrote. `decimals` has numbers.
// What several of them put, one behind another, is said by `Put` (specs/Put.antt), with a bound for the room that it takes.

#![tactic(auto)]

pub mod decimals;

ghost use Rattle.std.specs.Prelude.{◌≡◌, [], ◌∷◌, ◌+◌, ◌≤◌, ◌<◌, length};
ghost use Rattle.format.specs.Bytes.{pasted};

use octets::copy_at;

// A byte, and bytes.
pub fn put_byte(out: &mut [u8], at: usize, b: u8) -> usize
    requires { at < length out.old }
    ensures place { result ≡ at + 1 }
    ensures bytes { out.new ≡ pasted at (b ∷ []) out.old }
{
    out[at] = b;
    at + 1
}

pub fn put(out: &mut [u8], at: usize, s: &[u8]) -> usize
    requires { at + length s.now ≤ length out.old }
    ensures place { result ≡ at + length s.now }
    ensures bytes { out.new ≡ pasted at s.now out.old }
{
    copy_at(out, at, s);
    at + s.len()
}
