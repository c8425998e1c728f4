// UTF-8 by blocks: 64 bytes at a time are passed over where they are ASCII, or where each is sound behind the three before it. A
// block that fails is left to the caller, who goes on character by character.
ghost use Rattle.std.specs.Prelude.{◌≡◌, ◌+◌, ◌≤◌, length};
ghost use Rattle.utf8.specs.Blocks.{largest_of, is_settled, sound_end, block_end, blocks_end};

use crate::soundness::faults;

// The largest byte of a part, without an early exit, so that the bytes are compared many at a time.
pub fn largest(part: &[u8]) -> u8
    ensures { result ≡ largest_of part.now }
{
    let mut top = 0u8;
    for b in part {
        if top < *b {
            top = *b;
        }
    }
    top
}

// Whether no character reaches over the place three behind `from`.
#[tactic(auto, unfolding(crate::specs::Blocks::is_settled))]
fn is_settled(s: &[u8], from: usize) -> bool
    requires { from + 3 ≤ length s.now }
    ensures { result ≡ is_settled s.now from }
{
    s[from] < 0xF0 && s[from + 1] < 0xE0 && s[from + 2] < 0xC2
}

// Passes over the 64 bytes three behind `from`, of which `top` is the largest, but for a character that reaches over their end; over none
// where one is not sound.
fn past_sound(s: &[u8], from: usize, top: u8) -> usize
    requires { from + 67 ≤ length s.now }
    ensures { result ≡ sound_end s.now from }
{
    let end = from + 67;
    let part = &s[from..end];
    if faults(part, top) {
        from + 3
    } else if 0xC2 <= s[from + 66] {
        from + 66
    } else if 0xE0 <= s[from + 65] {
        from + 65
    } else if 0xF0 <= s[from + 64] {
        from + 64
    } else {
        end
    }
}

// Passes over a block of 64 bytes that are ASCII or sound, or over none.
fn past_block(s: &[u8], at: usize) -> usize
    requires { at + 64 ≤ length s.now }
    ensures { result ≡ block_end s.now at }
{
    let end = at + 64;
    let part = &s[at..end];
    let top = largest(part);
    if top < 0x80 {
        return end;
    }
    if at < 3 {
        return at;
    }
    let from = at - 3;
    if is_settled(s, from) {
        return past_sound(s, from, top);
    }
    at
}

// Passes over blocks as far as they go.
pub fn past_blocks(s: &[u8], from: usize) -> usize
    requires { from ≤ length s.now }
    ensures { result ≡ blocks_end s.now from }
{
    let mut at = from;
    while 64 <= s.len() - at {
        let next = past_block(s, at);
        if next == at {
            return at;
        }
        at = next;
    }
    at
}
