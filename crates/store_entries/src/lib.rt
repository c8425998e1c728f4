// Entries in a store, one behind another: 16 bytes of numbers, name, value, and the bytes of the parameters
// (crates/format/specs/Layout.antt). Here one is read; specs/Stored.antt says what stands where. `groups` passes over entries and finds
// those of a name.

#![tactic(auto)]

pub mod groups;

ghost use Rattle.std.specs.Prelude.{◌≡◌, true, ◌+◌, ◌*◌, ◌≤◌, ◌<◌, eqb, length, drop, get_or};
ghost use Rattle.format.specs.Bytes.{all};
ghost use Rattle.store_entries.specs.Stored.{name_length, value_length, param_count, tail_length, size_in, name_in, value_in, tail_in, shaped};

// Every byte is zero. All are looked at, with no early exit as in `all`, so that many are tested at a time.
pub fn is_zero(s: &[u8]) -> bool
    ensures { result ≡ all (eqb 0) s.now }
{
    s.iter().fold(true, |zero, b| zero & (*b == 0))
}

// Numbers of one byte and of two, the low one first.
fn one_byte(b: u8) -> usize
    ensures { (result ≡ b) × (result < 256) }
{
    usize::from(b)
}

fn two_bytes(low: u8, high: u8) -> usize
    ensures { (result ≡ low + 256 * high) × (low < 256) × (result < 65536) }
{
    usize::from(u16::from_le_bytes([low, high]))
}

// The numbers of the entry at a place.
#[tactic(auto, using(crate::proofs::EntryShape::name_at))]
pub fn name_len(s: &[u8], at: usize) -> usize
    requires { at + 16 ≤ length s.now }
    ensures { (result ≡ name_length (drop at s.now)) × (result < 256) }
{
    one_byte(s[at])
}

pub fn value_len(s: &[u8], at: usize) -> usize
    requires { at + 16 ≤ length s.now }
    ensures { (result ≡ value_length (drop at s.now)) × (result < 65536) × (get_or (drop at s.now) 1 0 < 256) }
{
    two_bytes(s[at + 1], s[at + 2])
}

#[tactic(auto, using(crate::proofs::EntryShape::params_at))]
pub fn param_count(s: &[u8], at: usize) -> usize
    requires { at + 16 ≤ length s.now }
    ensures { (result ≡ param_count (drop at s.now)) × (result < 256) }
{
    one_byte(s[at + 3])
}

pub fn tail_len(s: &[u8], at: usize) -> usize
    requires { at + 16 ≤ length s.now }
    ensures { (result ≡ tail_length (drop at s.now)) × (result < 65536) × (get_or (drop at s.now) 4 0 < 256) }
{
    two_bytes(s[at + 4], s[at + 5])
}

// How many bytes it takes.
#[tactic(auto, using(crate::proofs::EntryShape::size_of))]
pub fn entry_len(s: &[u8], at: usize) -> usize
    requires { at + 16 ≤ length s.now }
    ensures { (result ≡ size_in (drop at s.now)) × (result < 131344) × (get_or (drop at s.now) 1 0 < 256) × (get_or (drop at s.now) 4 0 < 256) }
{
    16 + (name_len(s, at) + (value_len(s, at) + tail_len(s, at)))
}

// Whether an entry's bytes stand at a place.
#[tactic(auto, unfolding(crate::specs::Stored::shaped), using(crate::proofs::EntryShape::zero_part))]
pub fn is_shaped(s: &[u8], at: usize) -> bool
    requires { at ≤ length s.now }
    ensures { result ≡ shaped (drop at s.now) }
{
    16 <= s.len() - at && is_zero(&s[at + 6..at + 16]) && entry_len(s, at) <= s.len() - at
}

// The parts of the entry at a place.
#[tactic(auto, using(crate::proofs::EntryShape::within_numbers, crate::proofs::EntryShape::within_parts, crate::proofs::EntryShape::name_part))]
pub fn name_at<'a>(s: &'a [u8], at: usize) -> &'a [u8]
    requires { shaped (drop at s.now) ≡ true }
    ensures { result.now ≡ name_in (drop at s.now) }
{
    let from = at + 16;
    let to = from + name_len(s, at);
    &s[from..to]
}

#[tactic(auto, using(crate::proofs::EntryShape::within_numbers, crate::proofs::EntryShape::within_parts, crate::proofs::EntryShape::value_part_lem))]
pub fn value_at<'a>(s: &'a [u8], at: usize) -> &'a [u8]
    requires { shaped (drop at s.now) ≡ true }
    ensures { result.now ≡ value_in (drop at s.now) }
{
    let from = at + (16 + name_len(s, at));
    let to = from + value_len(s, at);
    &s[from..to]
}

#[tactic(auto, using(crate::proofs::EntryShape::within_numbers, crate::proofs::EntryShape::within_parts, crate::proofs::EntryShape::tail_part))]
pub fn tail_at<'a>(s: &'a [u8], at: usize) -> &'a [u8]
    requires { shaped (drop at s.now) ≡ true }
    ensures { result.now ≡ tail_in (drop at s.now) }
{
    let from = at + (16 + (name_len(s, at) + value_len(s, at)));
    let to = from + tail_len(s, at);
    &s[from..to]
}
