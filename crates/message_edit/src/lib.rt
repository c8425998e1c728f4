// Entries of a message that is held: where those of a name stand, and an entry put in their place or behind them. Bytes move
// once; room is judged before the first one moves.
// The record and the store stay two parameters: a call is lent both and hands back the record alone, so a struct of the two would be
// made and taken apart in each.

#![tactic(auto)]

ghost use Rattle.std.specs.Prelude.{◌≡◌, true, List, ◌∷◌, ◌++◌, ◌+◌, ◌≤◌, ◌<◌, length};
ghost use Rattle.std.specs.Result.{result_unwrap_or};
ghost use Rattle.format.specs.Message.{Entry, Header, Message, entry, entry_name, name_of, need_entry, need_header};
ghost use Rattle.format.specs.Calls.{if_room, with_headers, with_contents};
ghost use Rattle.format.specs.Layout.{Holds};
ghost use Rattle.format.specs.Lending.{head_lent};
ghost use Rattle.format.specs.Told.{told};
ghost use Rattle.store_entries.specs.Groups.{Grouped};
ghost use Rattle.store_splice.specs.NewEntries.{Fits, value_in};
ghost use Rattle.store_splice.specs.Spliced.{Parted};
ghost use Rattle.store_check.specs.Holding.{message_holds};
ghost use Rattle.message_edit.specs.Edits.{Does, Spelt};

use format::{CpimMessage, Refusal};
use store_entries::groups::{Group, find_group};
use store_splice::{NewEntry, replace};

// The headers of a name.
#[tactic(auto, using(crate::proofs::MessageBounds::held_bounds))]
pub fn headers_of(m: CpimMessage, head: &[u8], name: &[u8]) -> Group
    requires { message_holds m head.now ≡ true }
    ensures { (k : Message) → Holds (head_lent m head.now) k → Grouped name_of need_header name.now k.headers result.at result.size result.many }
{
    let end = 256 + m.headerlen;
    find_group(&head[256..end], m.headers, name)
}

// The content header of a name.
#[tactic(auto, using(crate::proofs::MessageBounds::held_bounds))]
pub fn contents_of(m: CpimMessage, head: &[u8], name: &[u8]) -> Group
    requires { message_holds m head.now ≡ true }
    ensures { (k : Message) → Holds (head_lent m head.now) k → Grouped entry_name need_entry name.now k.contents result.at result.size result.many }
{
    let from = 256 + m.headerlen;
    let end = from + m.contentlen;
    find_group(&head[from..end], m.contents, name)
}

// A header in the place of those at a place among the headers; 25 where there is no room.
#[tactic(auto, using(crate::proofs::MessageBounds::held_bounds))]
pub fn splice_header(
    m: CpimMessage,
    head: &mut [u8],
    place: Group,
    new: NewEntry<'_>,
) -> Result<CpimMessage, Refusal>
    requires held { message_holds m head.old ≡ true }
    requires within { (place.at + place.size ≤ m.headerlen) × (place.many ≤ m.headers) }
    requires fits { Fits new }
    ensures { (k : Message) (l g h : List Header) (x : Header) → Holds (head_lent m head.old) k → Parted need_header k.headers l g h place.at place.size place.many → Spelt x new.entry.name.now (value_in new.entry) new.entry.params new.entry.tail.now → Does (head_lent m head.old) (head_lent (result_unwrap_or result m) head.new) (told result) (if_room (length head.old) (with_headers k (l ++ (x ∷ h)))) }
{
    let used = 256 + (m.headerlen + m.contentlen);
    replace(head, 256 + place.at, place.size, used, new)?;
    Ok(CpimMessage {
        headers: m.headers - place.many + 1,
        headerlen: m.headerlen - place.size + new.stored_len(),
        ..m
    })
}

// A content header in the same way: the two share `replace`, and each counts in fields of its own, so one function over both would be no
// plainer.
#[tactic(auto, using(crate::proofs::MessageBounds::held_bounds))]
pub fn splice_content(
    m: CpimMessage,
    head: &mut [u8],
    place: Group,
    name: &[u8],
    value: &[u8],
) -> Result<CpimMessage, Refusal>
    requires held { message_holds m head.old ≡ true }
    requires within { (place.at + place.size ≤ m.contentlen) × (place.many ≤ m.contents) }
    requires bytes { (length name.now < 256) × (length value.now < 65536) }
    ensures { (k : Message) (l g h : List Entry) → Holds (head_lent m head.old) k → Parted need_entry k.contents l g h place.at place.size place.many → Does (head_lent m head.old) (head_lent (result_unwrap_or result m) head.new) (told result) (if_room (length head.old) (with_contents k (l ++ (entry name.now value.now ∷ h)))) }
{
    let new = NewEntry::plain(name, value);
    let from = 256 + m.headerlen;
    let used = 256 + (m.headerlen + m.contentlen);
    replace(head, from + place.at, place.size, used, new)?;
    Ok(CpimMessage {
        contents: m.contents - place.many + 1,
        contentlen: m.contentlen - place.size + new.stored_len(),
        ..m
    })
}
