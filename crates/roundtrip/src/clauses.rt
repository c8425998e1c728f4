// Entries in a store asked by a test, one by one: the first that fails it (specs/Clauses.antt). And what the clauses of both readings'
// conditions ask of an entry: of a header, a content header or a parameter.

ghost use Rattle.std.specs.Prelude.{◌≡◌, true, drop, Bool};
ghost use Rattle.format.specs.Bytes.{ascii, space, has, same_letters};
ghost use Rattle.format.specs.Demand3.{clear_content};
ghost use Rattle.format.specs.SecondReading.{spaceless_param};
ghost use Rattle.store_entries.specs.Stored.{Stored, shaped, shaped_all, stored_in, entries_in};
ghost use Rattle.lookup_nth.specs.Listed.{stored_of};
ghost use Rattle.lookup_nth.specs.declared.Entry.{Entry};
ghost use Rattle.roundtrip.specs.Clauses.{as_entry, Among, Asks, FirstFails, params_stand, stored_spaceless};

use code_points::ends::clear_ends;
use lookup_nth::{Entries, Entry};
use octets::compare::same_letters;
use octets::finding::find_byte;
use store_entries::{entry_len, name_at, param_count, tail_at, value_at};

// The entry at a place.
fn entry_at<'a>(s: &'a [u8], at: usize) -> Entry<'a>
    requires { shaped (drop at s.now) ≡ true }
    ensures { stored_of result ≡ stored_in (drop at s.now) }
{
    Entry {
        name: name_at(s, at),
        value: value_at(s, at),
        params: Entries {
            bytes: tail_at(s, at),
            count: param_count(s, at),
        },
    }
}

// The first entry that fails the test, by its number; None where all pass.
pub fn first_failing<F: Fn(Entry) -> bool>(entries: Entries, passes: F) -> Option<usize>
    requires shaped { shaped_all entries.count entries.bytes.now ≡ true }
    requires callable { (e : Entry) → Among (entries_in entries.count entries.bytes.now) (stored_of e) → F.pre passes e }
    ensures { (p : Stored → Bool) → Asks F.Fn passes p → FirstFails p (entries_in entries.entry.count entries.entry.bytes.now) result }
{
    let mut at = 0;
    for i in 0..entries.count {
        if !passes(entry_at(entries.bytes, at)) {
            return Some(i);
        }
        at += entry_len(entries.bytes, at);
    }
    None
}

// Content-type in any ASCII case.
pub fn is_type(name: &[u8]) -> bool
    ensures { result ≡ same_letters (ascii "Content-type") name.now }
{
    same_letters(b"Content-type", name)
}

// Neither name nor value has white space at an end.
#[tactic(auto, unfolding(format::specs::Demand3::clear_content))]
pub fn is_clear(entry: Entry) -> bool
    ensures { result ≡ clear_content (as_entry (stored_of entry.entry)) }
{
    clear_ends(entry.name) && clear_ends(entry.value)
}

fn has_space(text: &[u8]) -> bool
    ensures { result ≡ has space text.now }
{
    find_byte(text, b' ') < text.len()
}

// Neither name nor value has a space.
#[tactic(auto, unfolding(format::specs::SecondReading::spaceless_param))]
fn is_spaceless(param: Entry) -> bool
    ensures { result ≡ spaceless_param (as_entry (stored_of param.entry)) }
{
    !has_space(param.name) && !has_space(param.value)
}

// Whether no parameter of the entry has a space.
pub fn has_spaceless_params(entry: Entry) -> bool
    requires { params_stand (stored_of entry) ≡ true }
    ensures { result ≡ stored_spaceless (stored_of entry.entry) }
{
    first_failing(entry.params, is_spaceless).is_none()
}
