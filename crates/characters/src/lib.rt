// What stands at a place of a text, by Unicode Table 3-7: a well-formed character, or a maximal ill-formed subpart.
#![tactic(auto)]

ghost use Rattle.std.specs.Prelude.{◌≡◌, drop, option_map};
ghost use Rattle.format.specs.Told.{given};
ghost use Rattle.format.specs.Characters.{trail_of, matched};
ghost use Rattle.characters.specs.Coded.{coded_all};
ghost use Rattle.characters.specs.Lengths.{subpart_len, char_len};

// The trailing ranges of the row of Table 3-7 whose lead range holds b, each by its first and its last byte.
#[tactic(auto, unfolding(format::specs::Characters::trail_in))]
fn trail_of(b: u8) -> Option<&'static [(u8, u8)]>
    ensures { given (option_map (λ rs. coded_all rs.now) result) ≡ trail_of b }
{
    match b {
        0x00..=0x7F => Some(&[]),
        0xC2..=0xDF => Some(&[(0x80, 0xBF)]),
        0xE0 => Some(&[(0xA0, 0xBF), (0x80, 0xBF)]),
        0xE1..=0xEC => Some(&[(0x80, 0xBF), (0x80, 0xBF)]),
        0xED => Some(&[(0x80, 0x9F), (0x80, 0xBF)]),
        0xEE..=0xEF => Some(&[(0x80, 0xBF), (0x80, 0xBF)]),
        0xF0 => Some(&[(0x90, 0xBF), (0x80, 0xBF), (0x80, 0xBF)]),
        0xF1..=0xF3 => Some(&[(0x80, 0xBF), (0x80, 0xBF), (0x80, 0xBF)]),
        0xF4 => Some(&[(0x80, 0x8F), (0x80, 0xBF), (0x80, 0xBF)]),
        _ => None,
    }
}

// How many bytes of s are within the ranges, one after another.
fn matched(ranges: &[(u8, u8)], s: &[u8]) -> usize
    ensures { result ≡ matched (coded_all ranges.now) s.now }
{
    ranges
        .iter()
        .zip(s)
        .take_while(|((first, last), b)| *first <= **b && **b <= *last)
        .count()
}

// The length of the character or maximal ill-formed subpart that stands at a place; 0 at the end.
pub fn subpart_len(s: &[u8], at: usize) -> usize
    ensures { result ≡ subpart_len (drop at s.now) }
{
    if s.len() <= at {
        return 0;
    }
    match trail_of(s[at]) {
        Some(ranges) => matched(ranges, &s[at + 1..]) + 1,
        None => 1,
    }
}

// The length of the well-formed character that stands at a place; 0 where none does. Most characters are ASCII.
pub fn char_len(s: &[u8], at: usize) -> usize
    ensures { result ≡ char_len (drop at s.now) }
{
    if s.len() <= at {
        return 0;
    }
    let b = s[at];
    if b < 0x80 {
        return 1;
    }
    match trail_of(b) {
        Some(ranges) => {
            if matched(ranges, &s[at + 1..]) == ranges.len() {
                ranges.len() + 1
            } else {
                0
            }
        }
        None => 0,
    }
}
