// Where a part stands in a lent store, by numbers (specs/Spots.antt): the answer of a lookup where no reference can be handed back.

ghost use Rattle.std.specs.Prelude.{◌≡◌, true, List, ◌-◌, ◌≤◌, length, take, drop};
ghost use Rattle.format.specs.Message.{Entry};
ghost use Rattle.format.specs.Layout.{layout_entry};
ghost use Rattle.format.specs.LookingUp.{nth};
ghost use Rattle.store_entries.specs.Stored.{shaped_all};
ghost use Rattle.lookup_nth.specs.Listed.{Listed};
ghost use Rattle.lookup_places.specs.Spots.{PairIs, entry_place};

use store_entries::groups::pass_first;
use store_entries::{name_len, value_len};

// A part: whether there is one, where it begins, and its length. C reads `found` in the place of an `Option`, here and in `Pair`.
#[repr(C)]
#[derive(Clone, Copy)]
pub struct Part {
    pub found: bool,
    pub start: usize,
    pub length: usize,
}

impl Part {
    pub const NONE: Part = Part {
        found: false,
        start: 0,
        length: 0,
    };

    pub fn at(start: usize, length: usize) -> Part
        ensures { result ≡ record { found = true; start = start; length = length } }
    {
        Part {
            found: true,
            start,
            length,
        }
    }
}

// A name and a value: whether there is such an entry, where the name begins, its length, and the length of the value behind it.
#[repr(C)]
#[derive(Clone, Copy)]
pub struct Pair {
    pub found: bool,
    pub start: usize,
    pub name: usize,
    pub value: usize,
}

impl Pair {
    pub const NONE: Pair = Pair {
        found: false,
        start: 0,
        name: 0,
        value: 0,
    };
}

// The n-th of count entries that stand in s from a place up to another.
pub fn nth_pair(s: &[u8], from: usize, to: usize, count: usize, n: usize) -> Pair
    requires { (from ≤ to) × (to ≤ length s.now) × (shaped_all count (take (to - from) (drop from s.now)) ≡ true) }
    ensures { (es : List Entry) → Listed layout_entry es (take (to - from) (drop from s.now)) count → PairIs s.now (entry_place from es n) (nth n es) result }
{
    if count <= n {
        return Pair::NONE;
    }
    let at = from + pass_first(&s[from..to], 0, count, n);
    Pair {
        found: true,
        start: at + 16,
        name: name_len(s, at),
        value: value_len(s, at),
    }
}
