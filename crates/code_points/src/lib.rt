// Code points, white space and control characters (document 01, "Characters"), of any bytes; in modules, white space at the ends of a
// text: stripped, and looked for.

#![tactic(auto)]

mod edges;
pub mod ends;
pub mod trimming;

ghost use Rattle.std.specs.Prelude.{◌≡◌, [], ◌∷◌, eqb};
ghost use Rattle.format.specs.Bytes.{any};
ghost use Rattle.format.specs.Characters.{well_formed, code_point, white_space, is_white, is_control};

fn wide(b: u8) -> u32
    ensures { result ≡ b }
{
    b as u32
}

// The code point of a character (Table 3-6).
#[tactic(auto, using(crate::proofs::WhiteTests::points))]
pub fn code_point(g: &[u8]) -> u32
    ensures { result ≡ code_point g.now }
{
    match *g {
        [a] => wide(a),
        [a, b] => (wide(a) % 32) * 64 + wide(b) % 64,
        [a, b, c] => (wide(a) % 16) * 4096 + ((wide(b) % 64) * 64 + wide(c) % 64),
        [a, b, c, d] => {
            (wide(a) % 8) * 262144 + ((wide(b) % 64) * 4096 + ((wide(c) % 64) * 64 + wide(d) % 64))
        }
        _ => 0,
    }
}

// Whether the bytes are one well-formed character.
#[tactic(auto, using(crate::proofs::WhiteTests::wholes))]
pub fn is_char(g: &[u8]) -> bool
    ensures { result ≡ well_formed g.now }
{
    let n = characters::char_len(g, 0);
    n != 0 && n == g.len()
}

// Whether n is one of the 25 code points of Unicode White_Space.
#[tactic(auto, using(crate::proofs::WhiteTests::listed))]
fn is_listed(n: u32) -> bool
    ensures { result ≡ any (eqb n) white_space }
{
    matches!(
        n,
        0x0009..=0x000D | 0x0020 | 0x0085 | 0x00A0 | 0x1680 | 0x2000..=0x200A | 0x2028..=0x2029 | 0x202F | 0x205F | 0x3000
    )
}

// Whether the byte alone is a white-space character: U+0009 to U+000D or U+0020.
#[tactic(auto, using(crate::proofs::WhiteTests::white_bytes))]
pub fn is_white_byte(b: u8) -> bool
    ensures { result ≡ is_white (b ∷ []) }
{
    matches!(b, 0x09..=0x0D | 0x20)
}

// Whether the bytes are one white-space character.
#[tactic(auto, using(crate::proofs::WhiteTests::whites))]
pub fn is_white(g: &[u8]) -> bool
    ensures { result ≡ is_white g.now }
{
    match *g {
        [b] => is_white_byte(b),
        _ => is_listed(code_point(g)) && is_char(g),
    }
}

// Whether the bytes are one control character: U+0000 to U+001F or U+007F to U+009F.
#[tactic(auto, using(crate::proofs::WhiteTests::controls))]
pub fn is_control(g: &[u8]) -> bool
    ensures { result ≡ is_control g.now }
{
    match code_point(g) {
        0x00..=0x1F | 0x7F..=0x9F => is_char(g),
        _ => false,
    }
}
