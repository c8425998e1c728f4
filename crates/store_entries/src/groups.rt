// Entries passed over, and those of a name found among entries in the order of their names (specs/Passing.antt).

ghost use Rattle.std.specs.Prelude.{◌≡◌, true, Bool, ◌≤◌, length, drop};
ghost use Rattle.format.specs.Bytes.{Bytes, total};
ghost use Rattle.store_entries.specs.Stored.{shaped_all, entries_in, stored_size};
ghost use Rattle.store_entries.specs.Passing.{Tests, PassedWhilst, under, of_name};

use crate::{entry_len, name_at};
use octets::compare::{before, same};

// The bytes and the number of entries that were passed over.
#[derive(Clone, Copy)]
struct Passed {
    size: usize,
    many: usize,
}

// The entries of a name among others, which are in the order of their names: the bytes before them, theirs, and how many
// they are.
#[derive(Clone, Copy)]
pub struct Group {
    pub at: usize,
    pub size: usize,
    pub many: usize,
}

// Passes over entries while their names pass the test, from a place on; count entries stand there, up to the end.
fn pass<F: Fn(&[u8]) -> bool>(s: &[u8], from: usize, count: usize, passes: F) -> Passed
    requires shaped { shaped_all count (drop from s.now) ≡ true }
    requires callable { F.IsAlwaysCallable passes }
    ensures { (p : Bytes → Bool) → Tests F.Fn passes p → PassedWhilst p (entries_in count (drop from s.now)) result.size result.many }
{
    let mut size = 0;
    for many in 0..count {
        let at = from + size;
        if !passes(name_at(s, at)) {
            return Passed { size, many };
        }
        size += entry_len(s, at);
    }
    Passed { size, many: count }
}

// The bytes of the first n of count entries from a place on.
pub fn pass_first(s: &[u8], from: usize, count: usize, n: usize) -> usize
    requires { (shaped_all count (drop from s.now) ≡ true) × (n ≤ count) }
    ensures { result ≡ total stored_size (entries_in n (drop from s.now)) }
{
    let mut size = 0;
    for _ in 0..n {
        size += entry_len(s, from + size);
    }
    size
}

// The entries of a name among count entries in the order of their names; where there is none, its place and no bytes.
pub fn find_group(s: &[u8], count: usize, name: &[u8]) -> Group
    requires { shaped_all count s.now ≡ true }
    ensures place { result.at ≡ total stored_size (under name.now (entries_in count s.now)) }
    ensures bytes { result.size ≡ total stored_size (of_name name.now (entries_in count s.now)) }
    ensures entries { result.many ≡ length (of_name name.now (entries_in count s.now)) }
{
    let low = pass(s, 0, count, |other| before(other, name));
    let own = pass(s, low.size, count - low.many, |other| same(name, other));
    Group {
        at: low.size,
        size: own.size,
        many: own.many,
    }
}
