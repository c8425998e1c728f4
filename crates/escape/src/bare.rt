// Whether a text has nothing to escape: no byte of it is an ASCII control, a quote, a backslash, or the lead byte C2 of the two-byte
// controls. Most texts have nothing, and are then copied whole.

ghost use Rattle.std.specs.Prelude.{◌≡◌, length};
ghost use Rattle.format.specs.Bytes.{all, any};
ghost use Rattle.escape.specs.Bare.{is_low, is_bare};

use octets::finding::has_byte;

// A byte below 32 stands in the block. (One function over a closure for this and `has_byte` would have a longer contract than the two.)
fn has_low(block: &[u8]) -> bool
    requires { length block.now ≡ 16 }
    ensures { result ≡ any is_low block.now }
{
    let mut hit = false;
    for k in 0..16 {
        hit |= block[k] < 32;
    }
    hit
}

// Every byte of the block is written as it is.
#[tactic(auto, using(crate::proofs::ByKind::bare_kinds))]
fn bare_block(block: &[u8]) -> bool
    requires { length block.now ≡ 16 }
    ensures { result ≡ all is_bare block.now }
{
    !(has_low(block)
        || has_byte(block, b'"')
        || has_byte(block, b'\\')
        || has_byte(block, 0x7F)
        || has_byte(block, 0xC2))
}

// The byte is written as it is, whatever stands around it.
#[tactic(auto, unfolding(crate::specs::Bare::is_bare))]
fn bare_byte(b: u8) -> bool
    ensures { result ≡ is_bare b }
{
    !matches!(b, 0..=31 | b'"' | b'\\' | 0x7F | 0xC2)
}

// The same for the text, byte by byte.
fn bare_bytes(v: &[u8]) -> bool
    ensures { result ≡ all is_bare v.now }
{
    v.iter().all(|b| bare_byte(*b))
}

// The same in blocks. The last block ends with the text, and may overlap the one before it. (A fold over the whole text takes up to half as
// long again where it has 17 to 40 bytes: 14.0 for 9.1 ns at 20.)
pub fn bare_text(v: &[u8]) -> bool
    ensures { result ≡ all is_bare v.now }
{
    if v.len() < 16 {
        return bare_bytes(v);
    }
    let last = v.len() - 16;
    let mut i = 0;
    while i < last {
        if !bare_block(&v[i..i + 16]) {
            return false;
        }
        i += 16;
    }
    bare_block(&v[last..])
}
