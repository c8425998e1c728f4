// What the changing calls do to a message that is held: the checks on the arguments in document 01's order, then the entry put in
// its place.
// The record and the store stay two parameters: a call is lent both and hands back the record alone.

#![tactic(auto)]

ghost use Rattle.std.specs.Prelude.{◌≡◌, true, ◌&&◌, List, ◌<◌, length};
ghost use Rattle.std.specs.Result.{result_unwrap_or};
ghost use Rattle.format.specs.Characters.{is_utf8};
ghost use Rattle.format.specs.Message.{Header, Message};
ghost use Rattle.format.specs.Calls.{append, header_set, header_added, content_header_added};
ghost use Rattle.format.specs.Layout.{Holds};
ghost use Rattle.format.specs.Lending.{head_lent, lengths};
ghost use Rattle.format.specs.Told.{checked, told};
ghost use Rattle.store_splice.specs.NewEntries.{Fits, value_in};
ghost use Rattle.store_check.specs.Holding.{message_holds};
ghost use Rattle.message_edit.specs.Edits.{Does, Spelt};
ghost use Rattle.message_rules.specs.Readiness.{readiness};

use format::{CpimMessage, Refusal};
use message_edit::{contents_of, headers_of, splice_content, splice_header};
use store_check::{MAX_CONTENT_HEADERS, MAX_HEADERS, message_holds};
use store_entries::groups::Group;
use store_splice::NewEntry;
use utf8::is_utf8;
use validate::{
    refuse_if, validate_content_header_value, validate_cpim_header_value, validate_header_name,
};

// 25 carrying 0 where no message is held, then 24 where an argument is not UTF-8.
#[tactic(auto, unfolding(crate::specs::Readiness::readiness, format::specs::Told::meant), using(validate::proofs::Chains::chains))]
pub fn ready(m: CpimMessage, head: &[u8], a: &[u8], b: &[u8]) -> Result<(), Refusal>
    ensures { checked result ≡ readiness (message_holds m head.now) (is_utf8 a.now && is_utf8 b.now) }
{
    refuse_if(!message_holds(m, head), Refusal::NoRoom(0))?;
    let texts = is_utf8(a) & is_utf8(b);
    refuse_if(!texts, Refusal::NotUtf8)
}

// A header behind those of its name: 20, then 25.
#[tactic(auto, using(message_edit::proofs::MessageBounds::held_bounds))]
pub fn append_held(
    m: CpimMessage,
    head: &mut [u8],
    new: NewEntry<'_>,
) -> Result<CpimMessage, Refusal>
    requires held { message_holds m head.old ≡ true }
    requires fits { Fits new }
    ensures { (k : Message) (x : Header) → Holds (head_lent m head.old) k → Spelt x new.entry.name.now (value_in new.entry) new.entry.params new.entry.tail.now → Does (head_lent m head.old) (head_lent (result_unwrap_or result m) head.new) (told result) (append x (lengths (head_lent m head.old)) k) }
{
    let count = m.headers + 1;
    refuse_if(MAX_HEADERS < count, Refusal::TooManyHeaders(count))?;
    let group = headers_of(m, head, new.name);
    let behind = Group {
        at: group.at + group.size,
        size: 0,
        many: 0,
    };
    splice_header(m, head, behind, new)
}

// A header of this name and value in the place of all of its name: name, 20 counted without what it replaces, value, 25.
#[tactic(auto, using(message_edit::proofs::MessageBounds::held_bounds))]
pub fn set_held(
    m: CpimMessage,
    head: &mut [u8],
    name: &[u8],
    value: &[u8],
) -> Result<CpimMessage, Refusal>
    requires { message_holds m head.old ≡ true }
    ensures { (k : Message) → Holds (head_lent m head.old) k → Does (head_lent m head.old) (head_lent (result_unwrap_or result m) head.new) (told result) (header_set name.now value.now (lengths (head_lent m head.old)) k) }
{
    let group = headers_of(m, head, name);
    let count = m.headers - group.many + 1;
    validate_header_name(name)?;
    refuse_if(MAX_HEADERS < count, Refusal::TooManyHeaders(count))?;
    validate_cpim_header_value(value)?;
    splice_header(m, head, group, NewEntry::plain(name, value))
}

// A header appended: value, name, 20, 25.
pub fn add_held(
    m: CpimMessage,
    head: &mut [u8],
    name: &[u8],
    value: &[u8],
) -> Result<CpimMessage, Refusal>
    requires { message_holds m head.old ≡ true }
    ensures { (k : Message) → Holds (head_lent m head.old) k → Does (head_lent m head.old) (head_lent (result_unwrap_or result m) head.new) (told result) (header_added name.now value.now (lengths (head_lent m head.old)) k) }
{
    let new = NewEntry::plain(name, value);
    validate_cpim_header_value(value)?;
    validate_header_name(name)?;
    append_held(m, head, new)
}

// A content header set: name, value, 22 even when replacing, 25.
#[tactic(auto, using(message_edit::proofs::MessageBounds::held_bounds))]
pub fn content_held(
    m: CpimMessage,
    head: &mut [u8],
    name: &[u8],
    value: &[u8],
) -> Result<CpimMessage, Refusal>
    requires { message_holds m head.old ≡ true }
    ensures { (k : Message) → Holds (head_lent m head.old) k → Does (head_lent m head.old) (head_lent (result_unwrap_or result m) head.new) (told result) (content_header_added name.now value.now (lengths (head_lent m head.old)) k) }
{
    let group = contents_of(m, head, name);
    let count = m.contents + 1;
    validate_header_name(name)?;
    validate_content_header_value(value)?;
    refuse_if(MAX_CONTENT_HEADERS < count, Refusal::TooManyContents(count))?;
    splice_content(m, head, group, name, value)
}
