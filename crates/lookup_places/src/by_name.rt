// Document 01, "Looking up", by place: the values and parameters of a name. Any record and any bytes may be lent, and any n asked for.

ghost use Rattle.std.proofs.Math.Option.{Option};
ghost use Rattle.format.specs.Message.{Message};
ghost use Rattle.format.specs.Layout.{Held};
ghost use Rattle.format.specs.Lending.{head_lent};
ghost use Rattle.format.specs.LookingUp.{nth_header, get_header, get_header_value, get_param};
ghost use Rattle.format.specs.Told.{given};
ghost use Rattle.lookup_places.specs.Spots.{PartIs, PairIs};
ghost use Rattle.lookup_places.specs.NamedPlaces.{header_place, value_place, param_place, SpotIs};

use crate::spots::{Pair, Part, nth_pair};
use format::CpimMessage;
use message_edit::headers_of;
use store_check::message_holds;
use store_entries::groups::pass_first;
use store_entries::{name_len, param_count, tail_len, value_len};
use utf8::is_utf8;

// Where the n-th header of a name begins in the head store, if there is one.
fn header_place(m: CpimMessage, head: &[u8], name: &[u8], n: usize) -> Option<usize>
    ensures { (o : Option Message) → Held (head_lent m head.now) o → SpotIs head.now (header_place o name.now n) (nth_header o name.now n) (given result) }
{
    if !message_holds(m, head) || !is_utf8(name) {
        return None;
    }
    let g = headers_of(m, head, name);
    if g.many <= n {
        return None;
    }
    let from = 256 + g.at;
    let to = from + g.size;
    Some(from + pass_first(&head[from..to], 0, g.many, n))
}

// The n-th value of a name.
pub fn value_place(m: CpimMessage, head: &[u8], name: &[u8], n: usize) -> Part
    ensures { (o : Option Message) → Held (head_lent m head.now) o → PartIs head.now (value_place (header_place o name.now n) (nth_header o name.now n)) (get_header_value o name.now n) result }
{
    match header_place(m, head, name, n) {
        Some(at) => Part::at(at + (16 + name_len(head, at)), value_len(head, at)),
        None => Part::NONE,
    }
}

// The first value of a name.
pub fn first_value_place(m: CpimMessage, head: &[u8], name: &[u8]) -> Part
    ensures { (o : Option Message) → Held (head_lent m head.now) o → PartIs head.now (value_place (header_place o name.now 0) (nth_header o name.now 0)) (get_header o name.now) result }
{
    value_place(m, head, name, 0)
}

// The n-th parameter of the k-th value of a name.
pub fn param_place(m: CpimMessage, head: &[u8], name: &[u8], k: usize, n: usize) -> Pair
    ensures { (o : Option Message) → Held (head_lent m head.now) o → PairIs head.now (param_place (header_place o name.now k) (nth_header o name.now k) n) (get_param o name.now k n) result }
{
    let Some(at) = header_place(m, head, name, k) else {
        return Pair::NONE;
    };
    let from = at + (16 + (name_len(head, at) + value_len(head, at)));
    let to = from + tail_len(head, at);
    nth_pair(head, from, to, param_count(head, at), n)
}
