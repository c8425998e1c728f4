// Bytes moved within a slice.
// The contract of each is `pasted` (crates/format/specs/Bytes.antt) with the bytes that stood at the source.

ghost use Rattle.std.specs.Prelude.{◌≡◌, ◌+◌, ◌≤◌, length, take, drop};
ghost use Rattle.format.specs.Bytes.{pasted};

use crate::copy_at;

// The n bytes at from go to the place to; the two ranges may overlap. (`copy_within` moves what is left of 32 bytes one by one: 7.4 for
// 5.7 ns at 20 bytes, 7.7 for 5.2 at 24.)
pub fn shift(s: &mut [u8], from: usize, to: usize, n: usize)
    requires { (from + n ≤ length s.old) × (to + n ≤ length s.old) }
    ensures { s.new ≡ pasted to (take n (drop from s.old)) s.old }
{
    if to <= from {
        shift_left(s, from, to, n);
    } else {
        shift_right(s, from, to, n);
    }
}

// At most 32 bytes: all are read before one is written.
fn shift_part(s: &mut [u8], from: usize, to: usize, n: usize)
    requires { (n ≤ 32) × (from + n ≤ length s.old) × (to + n ≤ length s.old) }
    ensures { s.new ≡ pasted to (take n (drop from s.old)) s.old }
{
    let mut part = [0u8; 32];
    let end = from + n;
    copy_at(&mut part, 0, &s[from..end]);
    copy_at(s, to, &part[..n]);
}

// Towards the start: forwards, so that no byte is written over before it is read.
fn shift_left(s: &mut [u8], from: usize, to: usize, n: usize)
    requires { (from + n ≤ length s.old) × (to ≤ from) }
    ensures { s.new ≡ pasted to (take n (drop from s.old)) s.old }
{
    let mut i = 0;
    while 32 <= n - i {
        shift_part(s, from + i, to + i, 32);
        i += 32;
    }
    shift_part(s, from + i, to + i, n - i);
}

// Towards the end: backwards, for the same reason.
fn shift_right(s: &mut [u8], from: usize, to: usize, n: usize)
    requires { (to + n ≤ length s.old) × (from ≤ to) }
    ensures { s.new ≡ pasted to (take n (drop from s.old)) s.old }
{
    let mut i = n;
    while 32 <= i {
        i -= 32;
        shift_part(s, from + i, to + i, 32);
    }
    shift_part(s, from, to, i);
}
