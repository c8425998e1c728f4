// Texts compared: the same bytes, in byte order, letters in any ASCII case, and a word looked for in a text.
// Each contract is an equation with a definition of crates/format/specs/Bytes.antt.

ghost use Rattle.std.specs.Prelude.{◌≡◌, ◌+◌, ◌≤◌, map, length, drop};
ghost use Rattle.format.specs.Bytes.{same, before, begins, occurs, lower, same_letters};

// The same bytes.
#[tactic(auto, using(crate::proofs::Comparing::same_pointwise))]
pub fn same(a: &[u8], b: &[u8]) -> bool
    ensures { result ≡ same a.now b.now }
{
    a == b
}

// Strictly before in byte order; a prefix comes first. (`a < b` takes four times as long as the loop at 1000 bytes. `cmp` takes many bytes
// at a time, but up to 1.9 times as long as the loop where the first eight differ: 5.5 for 2.9 ns where the first does, 10.3 for 6.3 at seven.)
pub fn before(a: &[u8], b: &[u8]) -> bool
    ensures { result ≡ before a.now b.now }
{
    let both = a.len().min(b.len());
    if both == 0 {
        return a.len() < b.len();
    }
    if a[0] != b[0] {
        return a[0] < b[0];
    }
    if 8 <= both && b.starts_with(&a[..8]) {
        return a.cmp(&b).is_lt();
    }
    for i in 1..both {
        if a[i] != b[i] {
            return a[i] < b[i];
        }
    }
    a.len() < b.len()
}

// A to Z become a to z.
#[tactic(auto, using(crate::proofs::Comparing::lower_is))]
pub fn lower(b: u8) -> u8
    ensures { result ≡ lower b }
{
    b.to_ascii_lowercase()
}

// The same bytes, letters in any ASCII case.
pub fn same_letters(a: &[u8], b: &[u8]) -> bool
    ensures { result ≡ same_letters a.now b.now }
{
    a.eq_ignore_ascii_case(b)
}

// Whether the pattern, in lower case, stands at a place of the text, whose letters are of any ASCII case.
fn stands_at(text: &[u8], at: usize, pattern: &[u8]) -> bool
    requires { at + length pattern.now ≤ length text.now }
    ensures { result ≡ begins pattern.now (drop at (map lower text.now)) }
{
    for (j, p) in pattern.iter().enumerate() {
        if lower(text[at + j]) != *p {
            return false;
        }
    }
    true
}

// Whether the pattern, in lower case and not empty, stands anywhere in the text, whose letters are of any ASCII case. (`windows` and `zip`
// take an eighth longer: 1500 for 1330 ns at 1000 bytes.)
pub fn says(text: &[u8], pattern: &[u8]) -> bool
    ensures { result ≡ occurs pattern.now (map lower text.now) }
{
    for at in 0..text.len() {
        if text.len() - at < pattern.len() {
            return false;
        }
        if stands_at(text, at, pattern) {
            return true;
        }
    }
    false
}
