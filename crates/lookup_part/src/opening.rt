// Where the address in a value opens: the first `<` outside a quoted string (document 02, T-02).

ghost use Rattle.std.specs.Prelude.{◌≡◌};
ghost use Rattle.format.specs.LookingUp.{opens, quoting_behind};
ghost use Rattle.format.specs.Told.{given};
ghost use Rattle.lookup_part.specs.AddressSpan.{opening_at};

use format::Quoting;
use octets::finding::find_byte;

// Whether a byte, by where it stands, is a `<` outside quoted strings.
#[tactic(auto, unfolding(format::specs::LookingUp::opens))]
fn opens(at: Quoting, b: u8) -> bool
    ensures { result ≡ opens at b }
{
    match at {
        Quoting::Outside => b == b'<',
        Quoting::Inside => false,
        Quoting::Covered => false,
    }
}

// Where the byte behind b stands: inside quotes a backslash covers it.
#[tactic(auto, unfolding(format::specs::LookingUp::quoting_behind))]
fn quoting_behind(at: Quoting, b: u8) -> Quoting
    ensures { result ≡ quoting_behind at b }
{
    match (at, b) {
        (Quoting::Outside, b'"') => Quoting::Inside,
        (Quoting::Inside, b'\\') => Quoting::Covered,
        (Quoting::Inside, b'"') => Quoting::Outside,
        (Quoting::Covered, _) => Quoting::Inside,
        _ => at,
    }
}

// The place of that `<`, if there is one: byte by byte.
fn opening_plain(value: &[u8]) -> Option<usize>
    ensures { given result ≡ opening_at value.now }
{
    let mut at = Quoting::Outside;
    for (i, &b) in value.iter().enumerate() {
        if opens(at, b) {
            return Some(i);
        }
        at = quoting_behind(at, b);
    }
    None
}

// The same: without a quote before it, the first `<` of all opens.
pub fn opening(value: &[u8]) -> Option<usize>
    ensures { given result ≡ opening_at value.now }
{
    let first = find_byte(value, b'<');
    if first == value.len() {
        return None;
    }
    if find_byte(&value[..first], b'"') == first {
        return Some(first);
    }
    opening_plain(value)
}
