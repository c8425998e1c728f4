// Document 01, "Looking up": the type and the body of a message. What is handed out is a part of a lent store. Any record and any
// bytes may be lent.

ghost use Rattle.std.specs.Prelude.{◌≡◌, option_copied};
ghost use Rattle.std.proofs.Math.Option.{Option};
ghost use Rattle.format.specs.Message.{Message};
ghost use Rattle.format.specs.Layout.{Held};
ghost use Rattle.format.specs.Lending.{head_lent, both_lent};
ghost use Rattle.format.specs.LookingUp.{get_type, get_body, body_as_str};
ghost use Rattle.format.specs.Told.{given};

use format::CpimMessage;
use store_check::message_holds;
use utf8::is_utf8;

pub fn content_type(m: CpimMessage, head: &[u8]) -> Option<&[u8]>
    ensures { (o : Option Message) → Held (head_lent m head.now) o → given (option_copied result) ≡ get_type o }
{
    if !message_holds(m, head) {
        return None;
    }
    Some(&head[..m.typelen])
}

pub fn body<'a>(m: CpimMessage, head: &[u8], store: &'a [u8]) -> Option<&'a [u8]>
    ensures { (o : Option Message) → Held (both_lent m head.now store.now) o → given (option_copied result) ≡ get_body o }
{
    if !message_holds(m, head) || store.len() < m.bodylen {
        return None;
    }
    Some(&store[..m.bodylen])
}

pub fn body_as_str(m: CpimMessage, head: &[u8], store: &[u8]) -> bool
    ensures { (o : Option Message) → Held (both_lent m head.now store.now) o → result ≡ body_as_str o }
{
    match body(m, head, store) {
        Some(text) => is_utf8(text),
        None => false,
    }
}
