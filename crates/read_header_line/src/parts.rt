// What the two readings of a header line differ in: where its parts stand left and right of the colon, 28, and how a parameter is taken. By
// the second reading the first space right of the colon parts parameters and value. Functions, and no record of all parts at once: the value
// stands behind a space that may be missing, which 28 has to tell before the value is taken.

ghost use Rattle.std.specs.Prelude.{◌≡◌, ◌<◌, length};
ghost use Rattle.format.specs.Bytes.{semicolon, space, up_to};
ghost use Rattle.format.specs.ReadingRfc.{misplaced};
ghost use Rattle.format.specs.Told.{checked};
ghost use Rattle.format.specs.declared.Manner.TheVariants.{Source, Rfc};
ghost use Rattle.read_header_line.specs.HeaderLine.{name_by, params_by, value_by, misplaced_by, space_by, taken_by, lacking_by};

use code_points::trimming::trim;
use format::{Manner, Refusal};
use octets::finding::find_byte;

// The place of the first space right of the colon; the first reading asks for none.
pub fn space_at(manner: Manner, right: &[u8]) -> usize
    ensures { result ≡ space_by manner right.now }
{
    match manner {
        Manner::Source => 0,
        Manner::Rfc => find_byte(right, b' '),
    }
}

// The text that has the parameters.
pub fn params_of<'a>(manner: Manner, left: &'a [u8], right: &'a [u8], at: usize) -> &'a [u8]
    requires { at ≡ space_by manner right.now }
    ensures { result.now ≡ params_by manner left.now right.now }
{
    match manner {
        Manner::Source => left,
        Manner::Rfc => &right[..at],
    }
}

// The name; stop is the place of the first `;` left of the colon, by the first reading.
pub fn name_of<'a>(manner: Manner, left: &'a [u8], stop: usize) -> &'a [u8]
    requires { manner ≡ Source → stop ≡ length (up_to semicolon left.now) }
    ensures { result.now ≡ name_by manner left.now }
{
    match manner {
        Manner::Source => trim(&left[..stop]),
        Manner::Rfc => left,
    }
}

// The value.
pub fn value_of<'a>(manner: Manner, right: &'a [u8], at: usize) -> &'a [u8]
    requires { (at ≡ space_by manner right.now) × (manner ≡ Rfc → at < length right.now) }
    ensures { result.now ≡ value_by manner right.now }
{
    match manner {
        Manner::Source => trim(right),
        Manner::Rfc => &right[at + 1..],
    }
}

// Whether the byte after the colon is neither space nor `;`, or no space follows the colon; at is the place of the first space.
#[tactic(auto, using(crate::proofs::LineParts::no_space, crate::proofs::LineParts::first_decides))]
fn misplaced(right: &[u8], at: usize) -> bool
    requires { at ≡ length (up_to space right.now) }
    ensures { result ≡ misplaced right.now }
{
    right.len() <= at || (right[0] != b' ' && right[0] != b';')
}

// Whether 28 is due.
pub fn misplaced_by(manner: Manner, right: &[u8], at: usize) -> bool
    requires { at ≡ space_by manner right.now }
    ensures { result ≡ misplaced_by manner right.now }
{
    match manner {
        Manner::Source => false,
        Manner::Rfc => misplaced(right, at),
    }
}

// A parameter's name or value as it is taken: the first reading trims it.
pub fn taken<'a>(manner: Manner, s: &'a [u8]) -> &'a [u8]
    ensures { result.now ≡ taken_by manner s.now }
{
    match manner {
        Manner::Source => trim(s),
        Manner::Rfc => s,
    }
}

// A part without `=`: it is skipped, or 27.
#[tactic(auto, unfolding(format::specs::Told::checked, format::specs::Told::meant))]
pub fn lacking(manner: Manner) -> Result<(), Refusal>
    ensures { checked result ≡ lacking_by manner }
{
    match manner {
        Manner::Source => Ok(()),
        Manner::Rfc => Err(Refusal::ParamLacksEquals),
    }
}
