// Document 02, T-13: how many strings of n ASCII bytes the first reading's unescaping accepts, and how many it refuses with 5, n from 0 to 9, as
// lines over the bytes of an output. The lines have the numbers of the definition (specs/CountLines.antt), so the table below is proved, row by
// row.

#![tactic(auto)]

ghost use Rattle.std.specs.Prelude.{◌+◌, ◌≤◌, length};
ghost use Rattle.output.specs.Put.{Put};
ghost use Rattle.counting.specs.CountLines.{count_words, count_lines};

use output::decimals::put_decimal;
use output::{put, put_byte};

// Accepted and refused, by the length of the strings.
const COUNTS: [[u64; 2]; 10] = [
    [1, 0],
    [127, 1],
    [16135, 249],
    [2049907, 47245],
    [260434999, 8000457],
    [33087544315, 1272194053],
    [4203680969351, 194365541753],
    [534066037755171, 28883915666141],
    [67851612613587343, 4205981424340593],
    [8620359672402207851, 603012364452567957],
];

// The line of a length.
fn put_count_line(out: &mut [u8], at: usize, n: usize, accepted: u64, refused: u64) -> usize
    requires { at + 82 ≤ length out.old }
    ensures { Put at 82 (count_words n accepted refused) out.old out.new result }
{
    let mut to = put(out, at, b"n=");
    to = put_decimal(out, to, n as u64);
    to = put(out, to, b" accepted=");
    to = put_decimal(out, to, accepted);
    to = put(out, to, b" refused=");
    to = put_decimal(out, to, refused);
    put_byte(out, to, b'\n')
}

// All lines. Gives where they end.
pub fn put_count_lines(out: &mut [u8; 820]) -> usize
    ensures { Put 0 820 count_lines out.old out.new result }
{
    let counts = COUNTS;
    let mut to = 0;
    for n in 0..10 {
        let row = counts[n];
        to = put_count_line(out, to, n, row[0], row[1]);
    }
    to
}
