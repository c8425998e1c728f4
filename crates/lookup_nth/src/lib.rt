// Entries in a store, one behind another: the n-th of them, and the parameters of all counted.

#![tactic(auto)]

ghost use Rattle.std.specs.Prelude.{◌≡◌, true, ◌<◌, option_map};
ghost use Rattle.format.specs.Bytes.{total};
ghost use Rattle.format.specs.LookingUp.{nth};
ghost use Rattle.format.specs.Told.{given};
ghost use Rattle.store_entries.specs.Stored.{shaped_all, entries_in};
ghost use Rattle.lookup_nth.specs.Listed.{stored_of};

use store_entries::groups::pass_first;
use store_entries::{entry_len, name_at, param_count, tail_at, value_at};

// So many entries, one behind another.
#[derive(Clone, Copy)]
pub struct Entries<'a> {
    pub bytes: &'a [u8],
    pub count: usize,
}

// An entry by its parts; a parameter or a content header has no parameters.
#[derive(Clone, Copy)]
pub struct Entry<'a> {
    pub name: &'a [u8],
    pub value: &'a [u8],
    pub params: Entries<'a>,
}

impl<'a> Entries<'a> {
    pub const NONE: Entries<'static> = Entries {
        bytes: b"",
        count: 0,
    };

    // The n-th entry, if there is one.
    pub fn nth(self, n: usize) -> Option<Entry<'a>>
        requires { shaped_all self.count self.bytes.now ≡ true }
        ensures { given (option_map stored_of result) ≡ nth n (entries_in self.entry.count self.entry.bytes.now) }
    {
        let Entries { bytes, count } = self;
        if count <= n {
            return None;
        }
        let at = pass_first(bytes, 0, count, n);
        Some(Entry {
            name: name_at(bytes, at),
            value: value_at(bytes, at),
            params: Entries {
                bytes: tail_at(bytes, at),
                count: param_count(bytes, at),
            },
        })
    }

    // How many parameters all of them have.
    pub fn count_params(self) -> usize
        requires { (shaped_all self.count self.bytes.now ≡ true) × (self.count < 65536) }
        ensures { result ≡ total (λ e. e.params) (entries_in self.entry.count self.entry.bytes.now) }
    {
        let mut at = 0;
        let mut params = 0;
        for _ in 0..self.count {
            params += param_count(self.bytes, at);
            at += entry_len(self.bytes, at);
        }
        params
    }
}
