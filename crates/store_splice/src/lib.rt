// Entries put into a store (crates/format/specs/Layout.antt), between those that stand before and behind them. Bytes past the
// used ones stay as they are.

#![tactic(auto)]

ghost use Rattle.std.specs.Prelude.{◌≡◌, true, ◌++◌, ◌+◌, ◌-◌, ◌≤◌, ◌<◌, ltb, length, take, drop, if◌then◌else◌};
ghost use Rattle.format.specs.Bytes.{pasted, over};
ghost use Rattle.format.specs.Calls.{room};
ghost use Rattle.format.specs.Layout.{fixed};
ghost use Rattle.format.specs.Told.{checked};
ghost use Rattle.store_splice.specs.Notations.{reads, value_read};
ghost use Rattle.store_splice.specs.NewEntries.{Fits, IsPlain, size_of, bytes_of};
ghost use Rattle.store_splice.specs.Spliced.{spliced};

use format::{Manner, Refusal};
use octets::copy_at;
use octets::shifting::shift;
use unescape::unescape_header_value;

// How a lent text stands for a value (specs/Notations.antt): as it is, or with the escapes of a header line, read in a
// manner.
#[derive(Clone, Copy)]
pub enum Notation {
    Plain,
    Escaped(Manner),
}

// An entry to be written (specs/NewEntries.antt): a text in a notation stands for its value of size bytes, and tail is the bytes
// of its parameters.
#[derive(Clone, Copy)]
pub struct NewEntry<'a> {
    pub name: &'a [u8],
    pub text: &'a [u8],
    pub notation: Notation,
    pub size: usize,
    pub params: usize,
    pub tail: &'a [u8],
}

impl<'a> NewEntry<'a> {
    // An entry whose value is given as it is, without parameters.
    pub fn plain(name: &'a [u8], value: &'a [u8]) -> NewEntry<'a>
        ensures { IsPlain name.now value.now result }
    {
        NewEntry {
            name,
            text: value,
            notation: Notation::Plain,
            size: value.len(),
            params: 0,
            tail: b"",
        }
    }

    // The bytes that it takes in a store.
    pub fn stored_len(self) -> usize
        requires { Fits self }
        ensures { result ≡ size_of self.entry }
    {
        16 + (self.name.len() + (self.size + self.tail.len()))
    }
}

// The 16 bytes of numbers of an entry.
#[tactic(auto, unfolding(format::specs::Layout::fixed))]
fn put_fixed(out: &mut [u8], at: usize, name: usize, value: usize, params: usize, tail: usize)
    requires room { at + 16 ≤ length out.old }
    requires bytes { (name < 256) × (value < 65536) × (params < 256) × (tail < 65536) }
    ensures { out.new ≡ pasted at (fixed name value params tail) out.old }
{
    let mut numbers = [0u8; 16];
    numbers[0] = name as u8;
    numbers[1..3].copy_from_slice(&(value as u16).to_le_bytes());
    numbers[3] = params as u8;
    numbers[4..6].copy_from_slice(&(tail as u16).to_le_bytes());
    copy_at(out, at, &numbers);
}

// The value that a text stands for, at a place: it is read straight into the slice.
fn put_value(out: &mut [u8], at: usize, text: &[u8], notation: Notation)
    requires read { reads notation text.now ≡ true }
    requires room { at + length (value_read notation text.now) ≤ length out.old }
    ensures { out.new ≡ pasted at (value_read notation text.now) out.old }
{
    match notation {
        Notation::Plain => copy_at(out, at, text),
        Notation::Escaped(manner) => {
            unescape_header_value(manner, out, at, text);
        }
    }
}

// An entry at a place.
#[tactic(auto, using(crate::proofs::Splicing::entry_pasted))]
pub fn put_entry(out: &mut [u8], at: usize, new: NewEntry<'_>)
    requires fits { Fits new }
    requires room { at + size_of new ≤ length out.old }
    ensures { out.new ≡ pasted at (bytes_of new.entry) out.old }
{
    let NewEntry {
        name,
        text,
        notation,
        size,
        params,
        tail,
    } = new;
    put_fixed(out, at, name.len(), size, params, tail.len());
    let name_at = at + 16;
    copy_at(out, name_at, name);
    let value_at = name_at + name.len();
    put_value(out, value_at, text, notation);
    copy_at(out, value_at + size, tail);
}

// An entry in the place of the old bytes at a place; used bytes of the store were in use.
#[tactic(auto, using(crate::proofs::Splicing::splice_pasted, crate::proofs::Splicing::entry_length))]
fn splice(store: &mut [u8], at: usize, old: usize, used: usize, new: NewEntry<'_>)
    requires within { (at + old ≤ used) × (used ≤ length store.old) }
    requires fits { Fits new }
    requires room { used - old + size_of new ≤ length store.old }
    ensures { store.new ≡ over (spliced at old used (bytes_of new.entry) store.old) store.old }
{
    let gap = new.stored_len();
    let from = at + old;
    shift(store, from, at + gap, used - from);
    put_entry(store, at, new);
}

// The same where there is room for it; else 25 carrying the need, and no byte changes.
#[tactic(auto, unfolding(format::specs::Calls::room, format::specs::Told::checked, format::specs::Told::meant, format::specs::Refusals::refuse_if))]
pub fn replace(
    store: &mut [u8],
    at: usize,
    old: usize,
    used: usize,
    new: NewEntry<'_>,
) -> Result<(), Refusal>
    requires within { (at + old ≤ used) × (used ≤ length store.old) }
    requires fits { Fits new }
    ensures answered { checked result ≡ room (length store.old) (used - old + size_of new.entry) }
    ensures left { store.new ≡ (if ltb (length store.old) (used - old + size_of new.entry) then store.old else over (spliced at old used (bytes_of new.entry) store.old) store.old) }
{
    let need = used - old + new.stored_len();
    if store.len() < need {
        return Err(Refusal::NoRoom(need));
    }
    splice(store, at, old, used, new);
    Ok(())
}
