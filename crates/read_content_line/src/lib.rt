// Document 01, "Reading": a content line, read into a message that is held, and the type in the head store's first 256 bytes.

#![tactic(auto)]

ghost use Rattle.std.specs.Prelude.{◌≡◌, true, ◌≤◌, length};
ghost use Rattle.std.specs.Result.{result_unwrap_or};
ghost use Rattle.format.specs.Bytes.{pasted};
ghost use Rattle.format.specs.Message.{Message};
ghost use Rattle.format.specs.Reading.{read_type, read_content_line};
ghost use Rattle.format.specs.Layout.{Holds};
ghost use Rattle.format.specs.Lending.{head_lent, lengths};
ghost use Rattle.format.specs.Told.{told};
ghost use Rattle.store_check.specs.Holding.{message_holds};
ghost use Rattle.message_edit.specs.Edits.{Does};
ghost use Rattle.read_content_line.specs.Types.{type_bytes};

use code_points::trimming::trim;
use format::{CpimMessage, Refusal};
use message_rules::content_held;
use octets::compare::same_letters;
use octets::{copy_at, zero_fill};
use sections::fields::{has, past, up_to};
use validate::validate_content_type;

// A type over the first 256 bytes of the head store, zeros behind it.
pub fn put_type(head: &mut [u8], t: &[u8])
    requires { (length t.now ≤ 256) × (256 ≤ length head.old) }
    ensures { head.new ≡ pasted 0 (type_bytes t.now) head.old }
{
    copy_at(head, 0, t);
    zero_fill(&mut head[t.len()..256]);
}

// Another type: 17, 18, 19. No byte behind the first 256 changes.
fn set_type(m: CpimMessage, head: &mut [u8], t: &[u8]) -> Result<CpimMessage, Refusal>
    requires { message_holds m head.old ≡ true }
    ensures { (k : Message) → Holds (head_lent m head.old) k → Does (head_lent m head.old) (head_lent (result_unwrap_or result m) head.new) (told result) (read_type t.now k) }
{
    validate_content_type(t)?;
    put_type(head, t);
    Ok(CpimMessage {
        typelen: t.len(),
        ..m
    })
}

// "No colon, skipped. Name and value trimmed. Content-type in any ASCII case sets the type"; others are content headers.
pub fn read_content_line(
    line: &[u8],
    m: CpimMessage,
    head: &mut [u8],
) -> Result<CpimMessage, Refusal>
    requires { message_holds m head.old ≡ true }
    ensures { (k : Message) → Holds (head_lent m head.old) k → Does (head_lent m head.old) (head_lent (result_unwrap_or result m) head.new) (told result) (read_content_line (lengths (head_lent m head.old)) line.now k) }
{
    if !has(line, b':') {
        return Ok(m);
    }
    let left = up_to(line, b':');
    let right = past(line, b':');
    let name = trim(left);
    let value = trim(right);
    if same_letters(b"Content-type", name) {
        set_type(m, head, value)
    } else {
        content_held(m, head, name, value)
    }
}
