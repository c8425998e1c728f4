// Document 01, "Looking up", by place: type, body and content headers of a message, value and parameters of a header alone. Any record and
// any bytes may be lent, and any n asked for. The address in a value.

ghost use Rattle.std.proofs.Math.Option.{Option};
ghost use Rattle.format.specs.Message.{LoneHeader, Message};
ghost use Rattle.format.specs.Layout.{Held, HeldAlone};
ghost use Rattle.format.specs.Lending.{head_lent, both_lent};
ghost use Rattle.format.specs.LookingUp.{get_type, get_body, get_content, alone_value, alone_param, address};
ghost use Rattle.lookup_places.specs.Spots.{PartIs, PairIs};
ghost use Rattle.lookup_places.specs.Standing.{content_place, alone_param_place, address_place};

use crate::spots::{Pair, Part, nth_pair};
use format::{CpimHeader, CpimMessage};
use lookup_part::{Span, address_span};
use store_check::{header_holds, message_holds};

pub fn type_place(m: CpimMessage, head: &[u8]) -> Part
    ensures { (o : Option Message) → Held (head_lent m head.now) o → PartIs head.now 0 (get_type o) result }
{
    if message_holds(m, head) {
        Part::at(0, m.typelen)
    } else {
        Part::NONE
    }
}

pub fn held_body_place(m: CpimMessage, head: &[u8], store: &[u8]) -> Part
    ensures { (o : Option Message) → Held (both_lent m head.now store.now) o → PartIs store.now 0 (get_body o) result }
{
    if message_holds(m, head) && m.bodylen <= store.len() {
        Part::at(0, m.bodylen)
    } else {
        Part::NONE
    }
}

pub fn content_place(m: CpimMessage, head: &[u8], n: usize) -> Pair
    ensures { (o : Option Message) → Held (head_lent m head.now) o → PairIs head.now (content_place o n) (get_content o n) result }
{
    if !message_holds(m, head) {
        return Pair::NONE;
    }
    let from = 256 + m.headerlen;
    let to = from + m.contentlen;
    nth_pair(head, from, to, m.contents, n)
}

pub fn alone_value_place(h: CpimHeader, store: &[u8]) -> Part
    ensures { (o : Option LoneHeader) → HeldAlone h store.now o → PartIs store.now 16 (alone_value o) result }
{
    if header_holds(h, store) {
        Part::at(16, h.valuelen)
    } else {
        Part::NONE
    }
}

pub fn alone_param_place(h: CpimHeader, store: &[u8], n: usize) -> Pair
    ensures { (o : Option LoneHeader) → HeldAlone h store.now o → PairIs store.now (alone_param_place o n) (alone_param o n) result }
{
    if !header_holds(h, store) {
        return Pair::NONE;
    }
    nth_pair(store, 16 + h.valuelen, h.size, h.params, n)
}

// Behind the first `<` outside a quoted string.
pub fn address_place(value: &[u8]) -> Part
    ensures { PartIs value.now (address_place value.now) (address value.now) result }
{
    match address_span(value) {
        Some(Span { from, to }) => Part::at(from, to - from),
        None => Part::NONE,
    }
}
