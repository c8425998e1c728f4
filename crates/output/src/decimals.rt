// Numbers in decimal digits (crates/format/specs/Showing.antt), over the bytes of an output.

ghost use Rattle.std.specs.Prelude.{◌≡◌, ◌+◌, ◌≤◌, length, drop};
ghost use Rattle.format.specs.Showing.{decimal};
ghost use Rattle.output.specs.Put.{Put};

use octets::copy_at;

// The digits at the end of room for the longest number; gives where they start. (The last digit comes first, and how many there are shows at the
// end: a `for` over the places would need its own way out.)
fn spell(n: u64, digits: &mut [u8]) -> usize
    requires { length digits.old ≡ 20 }
    ensures { (result ≤ 20) × (drop result digits.new ≡ decimal n) }
{
    let mut at = 20;
    let mut rest = n;
    while 10 <= rest {
        at -= 1;
        digits[at] = 48 + (rest % 10) as u8;
        rest /= 10;
    }
    at -= 1;
    digits[at] = 48 + rest as u8;
    at
}

// The digits from a place on; gives the place behind them.
pub fn put_decimal(out: &mut [u8], at: usize, n: u64) -> usize
    requires { at + 20 ≤ length out.old }
    ensures { Put at 20 (decimal n) out.old out.new result }
{
    let mut digits = [0u8; 20];
    let from = spell(n, &mut digits);
    copy_at(out, at, &digits[from..]);
    at + (20 - from)
}
