// The bytes of a code point. By hand: no clause of `encode_utf8` says which bytes of the slice it leaves, and `put_code` ensures all of them.

ghost use Rattle.std.specs.Prelude.{◌≡◌, ◌+◌, ◌≤◌, ◌<◌, length};
ghost use Rattle.format.specs.Bytes.{pasted};
ghost use Rattle.format.specs.Characters.{encoding};

// How many bytes a code point is encoded in.
#[tactic(auto, using(format::proofs::Characters::Scalars::encoding_one, format::proofs::Characters::Scalars::encoding_two, format::proofs::Characters::Scalars::encoding_three))]
pub fn code_len(n: u16) -> usize
    ensures { result ≡ length (encoding n) }
{
    match n {
        0..=127 => 1,
        128..=2047 => 2,
        _ => 3,
    }
}

// The encoding of a code point of at most four digits; how many bytes it is.
#[tactic(auto, using(format::proofs::Characters::Scalars::encoding_one, format::proofs::Characters::Scalars::encoding_two, format::proofs::Characters::Scalars::encoding_three, octets::proofs::Paste::pasted_one, octets::proofs::Paste::stores_two, octets::proofs::Paste::stores_three))]
pub fn put_code(out: &mut [u8], at: usize, n: u16) -> usize
    requires { at + length (encoding n) ≤ length out.old }
    ensures placed { result ≡ length (encoding n) }
    ensures wrote { out.new ≡ pasted at (encoding n) out.old }
{
    let low = (128 + n % 64) as u8;
    match n {
        0..=127 => {
            out[at] = n as u8;
            1
        }
        128..=2047 => {
            out[at] = (192 + n / 64) as u8;
            out[at + 1] = low;
            2
        }
        _ => {
            out[at] = (224 + n / 4096) as u8;
            out[at + 1] = (128 + n / 64 % 64) as u8;
            out[at + 2] = low;
            3
        }
    }
}
