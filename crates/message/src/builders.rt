// The source's `with_` wrappers: each sets or adds one header. A refused one keeps the message.

ghost use Rattle.std.specs.Prelude.{◌≡◌, ◌+◌, ◌≤◌, length};
ghost use Rattle.std.specs.Result.{result_unwrap_or};
ghost use Rattle.format.specs.Bytes.{over};
ghost use Rattle.format.specs.Calls.{with_from, with_to, with_datetime, with_subject, with_subject_lang, with_cc, with_ns, with_require, with_content_header, ns_value};
ghost use Rattle.format.specs.Lending.{head_lent, Changed};
ghost use Rattle.format.specs.Told.{told};

use crate::{add_content_header, add_header, set_header};
use format::{CpimMessage, Refusal};
use message_rules::{add_held, append_held, ready};
use octets::copy_at;
use store_splice::{NewEntry, put_entry};
use validate::{refuse_if, validate_cpim_header_value, validate_param_value};

pub fn with_from(m: CpimMessage, head: &mut [u8], from: &[u8]) -> Result<CpimMessage, Refusal>
    ensures { Changed (with_from from.now) (head_lent m head.old) (head_lent (result_unwrap_or result m) head.new) (told result) }
{
    set_header(m, head, b"From", from)
}

pub fn with_to(m: CpimMessage, head: &mut [u8], to: &[u8]) -> Result<CpimMessage, Refusal>
    ensures { Changed (with_to to.now) (head_lent m head.old) (head_lent (result_unwrap_or result m) head.new) (told result) }
{
    add_header(m, head, b"To", to)
}

pub fn with_datetime(
    m: CpimMessage,
    head: &mut [u8],
    datetime: &[u8],
) -> Result<CpimMessage, Refusal>
    ensures { Changed (with_datetime datetime.now) (head_lent m head.old) (head_lent (result_unwrap_or result m) head.new) (told result) }
{
    set_header(m, head, b"DateTime", datetime)
}

pub fn with_subject(m: CpimMessage, head: &mut [u8], subject: &[u8]) -> Result<CpimMessage, Refusal>
    ensures { Changed (with_subject subject.now) (head_lent m head.old) (head_lent (result_unwrap_or result m) head.new) (told result) }
{
    add_header(m, head, b"Subject", subject)
}

// A subject with the parameter lang: its header is built in place, no header store being lent.
pub fn with_subject_lang(
    m: CpimMessage,
    head: &mut [u8],
    subject: &[u8],
    lang: &[u8],
) -> Result<CpimMessage, Refusal>
    ensures { Changed (with_subject_lang subject.now lang.now) (head_lent m head.old) (head_lent (result_unwrap_or result m) head.new) (told result) }
{
    ready(m, head, subject, lang)?;
    validate_cpim_header_value(subject)?;
    validate_param_value(lang)?;
    let param = NewEntry::plain(b"lang", lang);
    let mut tail = [0u8; 276];
    put_entry(&mut tail, 0, param);
    let end = 20 + lang.len();
    let new = NewEntry {
        params: 1,
        tail: &tail[..end],
        ..NewEntry::plain(b"Subject", subject)
    };
    append_held(m, head, new)
}

pub fn with_cc(m: CpimMessage, head: &mut [u8], cc: &[u8]) -> Result<CpimMessage, Refusal>
    ensures { Changed (with_cc «cc».now) (head_lent m head.old) (head_lent (result_unwrap_or result m) head.new) (told result) }
{
    add_header(m, head, b"cc", cc)
}

// The value of NS: the prefix, ` <`, the uri and `>`.
fn put_ns(value: &mut [u8], prefix: &[u8], uri: &[u8])
    requires { length prefix.now + length uri.now + 3 ≤ length value.old }
    ensures { value.new ≡ over (ns_value prefix.now uri.now) value.old }
{
    copy_at(value, 0, prefix);
    copy_at(value, prefix.len(), b" <");
    copy_at(value, prefix.len() + 2, uri);
    copy_at(value, prefix.len() + 2 + uri.len(), b">");
}

pub fn with_ns(
    m: CpimMessage,
    head: &mut [u8],
    prefix: &[u8],
    uri: &[u8],
) -> Result<CpimMessage, Refusal>
    ensures { Changed (with_ns prefix.now uri.now) (head_lent m head.old) (head_lent (result_unwrap_or result m) head.new) (told result) }
{
    ready(m, head, prefix, uri)?;
    let text = prefix.len() + uri.len();
    refuse_if(1021 < text, Refusal::ValueTooLong(text.saturating_add(3)))?;
    let mut value = [0u8; 1024];
    put_ns(&mut value, prefix, uri);
    let end = text + 3;
    add_held(m, head, b"NS", &value[..end])
}

pub fn with_require(m: CpimMessage, head: &mut [u8], feature: &[u8]) -> Result<CpimMessage, Refusal>
    ensures { Changed (with_require feature.now) (head_lent m head.old) (head_lent (result_unwrap_or result m) head.new) (told result) }
{
    add_header(m, head, b"Require", feature)
}

pub fn with_content_header(
    m: CpimMessage,
    head: &mut [u8],
    name: &[u8],
    value: &[u8],
) -> Result<CpimMessage, Refusal>
    ensures { Changed (with_content_header name.now value.now) (head_lent m head.old) (head_lent (result_unwrap_or result m) head.new) (told result) }
{
    add_content_header(m, head, name, value)
}
