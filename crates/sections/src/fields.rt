// Document 01, "Reading": a line before and behind its first colon, a part before and behind its first `=`, and the parts
// between `;`, of which the first is what stands before the first `;`, and the others are those of what stands behind it.

ghost use Rattle.std.specs.Prelude.{◌≡◌, [], ◌∷◌, if◌then◌else◌};
ghost use Rattle.format.specs.Bytes.{has, up_to, past, pieces, split};

use octets::finding::find_byte;

// The byte c stands in s.
pub fn has(s: &[u8], c: u8) -> bool
    ensures { result ≡ has c s.now }
{
    find_byte(s, c) < s.len()
}

// What stands before the first c, all of s where there is none: the first part of s, split at c.
pub fn up_to<'a>(s: &'a [u8], c: u8) -> &'a [u8]
    ensures before { result.now ≡ up_to c s.now }
    ensures first { result.now ≡ (split (c ∷ []) s.now).first }
{
    let end = find_byte(s, c);
    &s[..end]
}

// What stands behind the first c, nothing where there is none: the other parts of s are its parts, split at c.
pub fn past<'a>(s: &'a [u8], c: u8) -> &'a [u8]
    ensures behind { result.now ≡ past c s.now }
    ensures others { (split (c ∷ []) s.now).rest ≡ (if has c s.now then pieces (split (c ∷ []) result.now) else []) }
{
    let end = find_byte(s, c);
    if end == s.len() {
        return &s[end..];
    }
    let next = end + 1;
    &s[next..]
}
