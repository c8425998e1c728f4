// A byte looked for in a text.
// Each contract is an equation with a definition of crates/format/specs/Bytes.antt; proofs/Find.antt has the laws of what
// `find_byte` gives.

ghost use Rattle.std.specs.Prelude.{◌≡◌, length};
ghost use Rattle.format.specs.Bytes.{has, up_to};

// The byte c stands in the block. All bytes are looked at, with no early exit as in `contains`: a block's test is a few vector instructions.
pub fn has_byte(block: &[u8], c: u8) -> bool
    ensures { result ≡ has c block.now }
{
    block.iter().fold(false, |hit, b| hit | (*b == c))
}

// The place of the first c, or the length where there is none: byte by byte.
fn find_byte_plain(s: &[u8], c: u8) -> usize
    ensures { result ≡ length (up_to c s.now) }
{
    s.iter().position(|b| *b == c).unwrap_or(s.len())
}

// The same in blocks: those without a c are passed over. (`chunks_exact` and `position` take three times as long: 15.9 for 4.8 ns at 33 bytes.)
pub fn find_byte(s: &[u8], c: u8) -> usize
    ensures { result ≡ length (up_to c s.now) }
{
    let mut i = 0;
    while 16 <= s.len() - i && !has_byte(&s[i..i + 16], c) {
        i += 16;
    }
    i + find_byte_plain(&s[i..], c)
}
