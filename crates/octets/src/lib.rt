// Byte slices: bytes copied and zeroed, and in modules a byte looked for, bytes moved, texts compared.
// Each contract is an equation with a definition of crates/format/specs/Bytes.antt; proofs/Paste.antt has the laws of
// `pasted`, by which every crate above says what it wrote.

#![tactic(auto)]

pub mod compare;
pub mod finding;
pub mod shifting;

ghost use Rattle.std.specs.Prelude.{◌≡◌, ◌+◌, ◌≤◌, length, replicate};
ghost use Rattle.format.specs.Bytes.{pasted};

// src over the bytes of dst from the place at on.
pub fn copy_at(dst: &mut [u8], at: usize, src: &[u8])
    requires { at + length src.now ≤ length dst.old }
    ensures { dst.new ≡ pasted at src.now dst.old }
{
    dst[at..at + src.len()].copy_from_slice(src);
}

// Every byte becomes zero.
pub fn zero_fill(s: &mut [u8])
    ensures { s.new ≡ replicate (length s.old) 0 }
{
    for b in s.iter_mut() {
        *b = 0;
    }
}
