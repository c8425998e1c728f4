// Document 01, "Escaping", and document 02, T-01: the number behind `\u`, by its digits.

ghost use Rattle.std.specs.Prelude.{◌≡◌};
ghost use Rattle.format.specs.Escaping.{digit_value, first_digit, four_digits};
ghost use Rattle.format.specs.Told.{given};

use format::Manner;

// The value of a hexadecimal digit in either case. By `match`: `to_digit` asks for a character, and its 32 bits would be cut to 16.
#[tactic(auto, unfolding(format::specs::Escaping::digit_value))]
fn digit_value(c: u8) -> Option<u16>
    ensures { given result ≡ digit_value c }
{
    match c {
        b'0'..=b'9' => Some(u16::from(c - b'0')),
        b'a'..=b'f' => Some(u16::from(c - 87)),
        b'A'..=b'F' => Some(u16::from(c - 55)),
        _ => None,
    }
}

// The same where the first of four digits is expected, for which the source takes a plus too.
#[tactic(auto, unfolding(format::specs::Escaping::first_digit))]
fn first_value(manner: Manner, c: u8) -> Option<u16>
    ensures { given result ≡ first_digit manner c }
{
    match (manner, c) {
        (Manner::Source, b'+') => Some(0),
        _ => digit_value(c),
    }
}

// The number after `\u`: four digits, by the source also a plus and three digits.
#[tactic(auto, using(format::proofs::Escaping::Unescape::digit_small, format::proofs::Escaping::Unescape::first_small), unfolding(format::specs::Escaping::four_digits))]
pub fn four_digits(manner: Manner, a: u8, b: u8, c: u8, d: u8) -> Option<u16>
    ensures { given result ≡ four_digits manner a b c d }
{
    let w = first_value(manner, a)?;
    let x = digit_value(b)?;
    let y = digit_value(c)?;
    let z = digit_value(d)?;
    Some(((w * 16 + x) * 16 + y) * 16 + z)
}
