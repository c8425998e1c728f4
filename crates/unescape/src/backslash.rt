// Document 01, "Escaping", and document 02, T-01: one escape behind its backslash, and which code point it stands for.

ghost use Rattle.std.specs.Prelude.{◌≡◌, ◌<◌};
ghost use Rattle.std.proofs.Math.Option.{some};
ghost use Rattle.format.specs.Escaping.{scalar_escape, one_byte, long_escape, apostrophe_escape, short_escape, escape_at};
ghost use Rattle.unescape.specs.Backslash.{escape_of, meant};

use crate::digits::four_digits;
use format::Manner;

// An escape: its code point, of at most four digits, and how many bytes it takes behind the backslash.
#[derive(Clone, Copy)]
pub struct Escape {
    pub code: u16,
    pub takes: u16,
}

// A code point behind `\u`: a surrogate is none.
#[tactic(auto, using(format::proofs::Characters::Shapes::scalar_low, format::proofs::Characters::Shapes::scalar_high, crate::proofs::Escapes::scalar_surrogate), unfolding(format::specs::Escaping::scalar_escape))]
fn scalar(n: u16) -> Option<Escape>
    ensures { escape_of result ≡ scalar_escape (some n) }
{
    match n {
        0xD800..=0xDFFF => None,
        _ => Some(Escape { code: n, takes: 5 }),
    }
}

// The digits behind `\u`.
#[tactic(auto, unfolding(format::specs::Escaping::long_escape, format::specs::Escaping::scalar_escape))]
fn long_escape(manner: Manner, digits: &[u8]) -> Option<Escape>
    ensures { escape_of result ≡ long_escape manner digits.now }
{
    let &[a, b, c, d, ..] = digits else {
        return None;
    };
    scalar(four_digits(manner, a, b, c, d)?)
}

// A short form, which one byte behind the backslash is all of.
#[tactic(auto, using(format::proofs::Characters::Scalars::encoding_one))]
fn one_byte(code: u8) -> Escape
    requires { code < 128 }
    ensures { some (meant result) ≡ one_byte code }
{
    Escape {
        code: u16::from(code),
        takes: 1,
    }
}

// \' is an escape of the RFC alone.
#[tactic(auto, unfolding(format::specs::Escaping::apostrophe_escape))]
fn apostrophe(manner: Manner) -> Option<Escape>
    ensures { escape_of result ≡ apostrophe_escape manner 39 }
{
    match manner {
        Manner::Source => None,
        Manner::Rfc => Some(one_byte(b'\'')),
    }
}

// The letter of a short form.
#[tactic(auto, unfolding(format::specs::Escaping::short_escape, format::specs::Escaping::apostrophe_escape))]
fn short_escape(manner: Manner, letter: u8) -> Option<Escape>
    ensures { escape_of result ≡ short_escape manner letter }
{
    match letter {
        b'\\' => Some(one_byte(b'\\')),
        b'"' => Some(one_byte(b'"')),
        b'b' => Some(one_byte(8)),
        b't' => Some(one_byte(b'\t')),
        b'n' => Some(one_byte(b'\n')),
        b'r' => Some(one_byte(b'\r')),
        b'\'' => apostrophe(manner),
        _ => None,
    }
}

// The escape that the bytes behind a backslash begin with.
#[tactic(auto, unfolding(format::specs::Escaping::escape_at))]
pub fn escape_at(manner: Manner, behind: &[u8]) -> Option<Escape>
    ensures { escape_of result ≡ escape_at manner behind.now }
{
    match behind {
        [] => None,
        [b'u', digits @ ..] => long_escape(manner, digits),
        [letter, ..] => short_escape(manner, *letter),
    }
}
