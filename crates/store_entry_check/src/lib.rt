// Whether bytes are entries of a kind, or headers with their parameters: any bytes are judged, in bounds and entry by entry
// (specs/EntriesHold.antt).

#![tactic(auto)]

mod fitting;
pub mod kinds;
mod weights;

ghost use Rattle.std.specs.Prelude.{◌≡◌, true, [], ◌≤◌, length, drop};
ghost use Rattle.format.specs.Bytes.{all};
ghost use Rattle.store_entries.specs.Stored.{shaped, shaped_all, stored_in, entries_in};
ghost use Rattle.store_entry_check.specs.EntriesHold.{fits, entry_holds, entries_hold, tail_holds, headers_hold};

use crate::fitting::{name_fits, value_fits};
use crate::kinds::{Kind, name_follows, params_fit};
use store_entries::{entry_len, is_shaped, name_at, param_count, tail_at, value_at};

// Whether the entry at a place is within limits and validators, its parameters not looked into.
#[tactic(auto, using(crate::proofs::EntryTests::fits_read, store_entries::proofs::EntryShape::within_numbers))]
fn entry_fits(kind: Kind, s: &[u8], at: usize) -> bool
    requires { shaped (drop at s.now) ≡ true }
    ensures { result ≡ fits kind (stored_in (drop at s.now)) }
{
    name_fits(kind, name_at(s, at))
        && value_fits(kind, value_at(s, at))
        && params_fit(kind, param_count(s, at), tail_at(s, at))
}

// Whether such an entry stands at a place, of a name that may stand behind the last one.
#[tactic(auto, unfolding(crate::specs::EntriesHold::entry_holds))]
fn entry_holds(kind: Kind, s: &[u8], at: usize, last: &[u8]) -> bool
    requires { at ≤ length s.now }
    ensures { result ≡ entry_holds kind last.now (drop at s.now) }
{
    is_shaped(s, at) && entry_fits(kind, s, at) && name_follows(kind, last, name_at(s, at))
}

// Whether s is so many entries.
#[tactic(auto, using(crate::proofs::CheckWalk::judged))]
pub fn entries_hold(kind: Kind, s: &[u8], count: usize) -> bool
    ensures { result ≡ entries_hold kind count [] s.now }
{
    let mut at = 0;
    let mut last: &[u8] = &[];
    for _ in 0..count {
        if !entry_holds(kind, s, at, last) {
            return false;
        }
        last = name_at(s, at);
        at += entry_len(s, at);
    }
    at == s.len()
}

// Whether the bytes behind each header's value are its parameters.
#[tactic(auto, using(crate::proofs::CheckWalk::looked, crate::proofs::EntryTests::tail_read))]
fn tails_hold(s: &[u8], count: usize) -> bool
    requires { shaped_all count s.now ≡ true }
    ensures { result ≡ all tail_holds (entries_in count s.now) }
{
    let mut at = 0;
    for _ in 0..count {
        if !entries_hold(Kind::Param, tail_at(s, at), param_count(s, at)) {
            return false;
        }
        at += entry_len(s, at);
    }
    true
}

#[tactic(auto, unfolding(crate::specs::EntriesHold::headers_hold), using(crate::proofs::EntriesListed::holds_shaped))]
pub fn headers_hold(s: &[u8], count: usize) -> bool
    ensures { result ≡ headers_hold count s.now }
{
    entries_hold(Kind::Header, s, count) && tails_hold(s, count)
}
