// The calls on a message in lent stores, under the source's names. Each takes the record and the stores and answers with the record to
// go on with, or with a refusal: then it has written nothing.
// The record and the store stay two parameters: a call is lent both and hands back the record alone.

#![tactic(auto)]

pub mod builders;

ghost use Rattle.std.specs.Prelude.{◌≡◌};
ghost use Rattle.std.specs.Result.{result_unwrap_or};
ghost use Rattle.format.specs.Calls.{set_body, set_header, add_header, add_content_header};
ghost use Rattle.format.specs.Layout.{empty_message};
ghost use Rattle.format.specs.Lending.{head_lent, both_lent, Changed, Made};
ghost use Rattle.format.specs.Told.{told};

use format::{CpimMessage, Refusal};
use message_rules::{add_held, content_held, ready, set_held};
use octets::copy_at;
use store_check::{MAX_BODY_SIZE, message_holds};
use utf8::is_utf8;
use validate::{refuse_if, validate_content_type};

// A message of a type and a body, with no entry: 24, type, 23, 25, then 26 if the body store is short.
pub fn new(
    content_type: &[u8],
    body: &[u8],
    head: &mut [u8],
    store: &mut [u8],
) -> Result<CpimMessage, Refusal>
    ensures { Made content_type.now body.now (both_lent empty_message head.old store.old) (both_lent (result_unwrap_or result empty_message) head.new store.new) (told result) }
{
    refuse_if(!is_utf8(content_type), Refusal::NotUtf8)?;
    validate_content_type(content_type)?;
    refuse_if(MAX_BODY_SIZE < body.len(), Refusal::BodyTooLong(body.len()))?;
    refuse_if(head.len() < 256, Refusal::NoRoom(256))?;
    refuse_if(store.len() < body.len(), Refusal::TooShort(body.len()))?;
    copy_at(head, 0, &[0u8; 256]);
    copy_at(head, 0, content_type);
    copy_at(store, 0, body);
    Ok(CpimMessage {
        typelen: content_type.len(),
        headers: 0,
        headerlen: 0,
        contents: 0,
        contentlen: 0,
        bodylen: body.len(),
    })
}

// Another body: 25 carrying 0 where no message is held, 23, 26.
pub fn set_body(
    m: CpimMessage,
    head: &[u8],
    store: &mut [u8],
    body: &[u8],
) -> Result<CpimMessage, Refusal>
    ensures { Changed (set_body body.now) (both_lent m head.now store.old) (both_lent (result_unwrap_or result m) head.now store.new) (told result) }
{
    let held = message_holds(m, head) & (m.bodylen <= store.len());
    let len = body.len();
    refuse_if(!held, Refusal::NoRoom(0))?;
    refuse_if(MAX_BODY_SIZE < len, Refusal::BodyTooLong(len))?;
    refuse_if(store.len() < len, Refusal::TooShort(len))?;
    copy_at(store, 0, body);
    Ok(CpimMessage { bodylen: len, ..m })
}

// A name's only value: name, 20 counted without what it replaces, value, 25.
pub fn set_header(
    m: CpimMessage,
    head: &mut [u8],
    name: &[u8],
    value: &[u8],
) -> Result<CpimMessage, Refusal>
    ensures { Changed (set_header name.now value.now) (head_lent m head.old) (head_lent (result_unwrap_or result m) head.new) (told result) }
{
    ready(m, head, name, value)?;
    set_held(m, head, name, value)
}

// One more value of a name: value, name, 20, 25.
pub fn add_header(
    m: CpimMessage,
    head: &mut [u8],
    name: &[u8],
    value: &[u8],
) -> Result<CpimMessage, Refusal>
    ensures { Changed (add_header name.now value.now) (head_lent m head.old) (head_lent (result_unwrap_or result m) head.new) (told result) }
{
    ready(m, head, name, value)?;
    add_held(m, head, name, value)
}

// A content header's value: name, value, 22 even when replacing, 25.
pub fn add_content_header(
    m: CpimMessage,
    head: &mut [u8],
    name: &[u8],
    value: &[u8],
) -> Result<CpimMessage, Refusal>
    ensures { Changed (add_content_header name.now value.now) (head_lent m head.old) (head_lent (result_unwrap_or result m) head.new) (told result) }
{
    ready(m, head, name, value)?;
    content_held(m, head, name, value)
}
