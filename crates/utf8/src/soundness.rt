// Whether the bytes of a block may stand where they do, each judged by the three bytes before it, without a branch that ends the
// loop early, so that many are judged at a time: `|` looks at both sides. (Of the two loops one looks back three bytes and one a single byte:
// a closure over the place would index no less.)
ghost use Rattle.std.specs.Prelude.{◌≡◌, not, length};
ghost use Rattle.utf8.specs.Sound.{is_trailing, is_owed, least_behind, greatest_behind, is_sound, all_sound, is_pair, all_pairs};

// Whether b is a trailing byte.
#[tactic(auto, unfolding(crate::specs::Sound::is_trailing))]
fn trails(b: u8) -> bool
    ensures { result ≡ is_trailing b }
{
    matches!(b, 0x80..=0xBF)
}

// Whether a trailing byte is to follow p1, with p2 before p1 and p3 before p2.
#[tactic(auto, unfolding(crate::specs::Sound::is_owed))]
fn owed(p3: u8, p2: u8, p1: u8) -> bool
    ensures { result ≡ is_owed p3 p2 p1 }
{
    (0xC2 <= p1) | (0xE0 <= p2) | (0xF0 <= p3)
}

// The least and the greatest byte that may follow p1.
#[tactic(auto, unfolding(crate::specs::Sound::least_behind))]
fn least_behind(p1: u8) -> u8
    ensures { result ≡ least_behind p1 }
{
    match p1 {
        0xE0 => 0xA0,
        0xF0 => 0x90,
        _ => 0,
    }
}

#[tactic(auto, unfolding(crate::specs::Sound::greatest_behind))]
fn greatest_behind(p1: u8) -> u8
    ensures { result ≡ greatest_behind p1 }
{
    match p1 {
        0xED => 0x9F,
        0xF4 => 0x8F,
        _ => 0xF4,
    }
}

// Whether b may not stand behind the three bytes before it.
fn fault(p3: u8, p2: u8, p1: u8, b: u8) -> bool
    ensures { result ≡ not (is_sound p3 p2 p1 b) }
{
    (trails(b) != owed(p3, p2, p1))
        | (b < least_behind(p1))
        | (greatest_behind(p1) < b)
        | (b == 0xC0)
        | (b == 0xC1)
}

// The same where no character has more than two bytes.
fn pair_fault(p1: u8, c: u8) -> bool
    ensures { result ≡ not (is_pair p1 c) }
{
    (trails(c) != owed(0, 0, p1)) | (0xDF < c) | (c == 0xC0) | (c == 0xC1)
}

// Whether a byte of a block may not stand behind the one before it, no character having more than two bytes; the first three bytes only
// stand before.
fn pair_faults(part: &[u8]) -> bool
    requires { length part.now ≡ 67 }
    ensures { result ≡ not (all_pairs 64 part.now) }
{
    let mut any = false;
    for i in 0..64 {
        any |= pair_fault(part[i + 2], part[i + 3]);
    }
    any
}

// Whether a byte of a block may not stand behind the three before it; the first three only stand before.
fn any_faults(part: &[u8]) -> bool
    requires { length part.now ≡ 67 }
    ensures { result ≡ not (all_sound 64 part.now) }
{
    let mut any = false;
    for k in 0..64 {
        any |= fault(part[k], part[k + 1], part[k + 2], part[k + 3]);
    }
    any
}

// The same; where `top`, the largest byte, leads no character of three or four bytes, pairs are tried first: a third of the tests.
pub fn faults(part: &[u8], top: u8) -> bool
    requires { length part.now ≡ 67 }
    ensures { result ≡ not (all_sound 64 part.now) }
{
    if top <= 0xDF && part[0] <= 0xDF && part[1] <= 0xDF && part[2] <= 0xDF && !pair_faults(part) {
        return false;
    }
    any_faults(part)
}
