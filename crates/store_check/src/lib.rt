// Whether a record and lent stores hold a message, or a header alone: any numbers and any bytes are judged, in bounds and part
// by part (specs/Holding.antt).

#![tactic(auto)]

ghost use Rattle.std.specs.Prelude.{◌≡◌, ◌≤◌, length};
ghost use Rattle.store_check.specs.Holding.{type_holds, numbers_hold, message_holds, sizes_hold, header_holds};

use format::{CpimHeader, CpimMessage};
use store_entries::is_zero;
pub use store_entry_check::kinds::MAX_PARAMS_PER_HEADER;
use store_entry_check::kinds::{Kind, value_passes};
use store_entry_check::{entries_hold, headers_hold};
use utf8::is_utf8;
use validate::validate_content_type;

pub const MAX_HEADERS: usize = 50;

pub const MAX_CONTENT_HEADERS: usize = 20;

pub const MAX_BODY_SIZE: usize = 10485760;

// Whether s is a type of n bytes, and zeros.
#[tactic(auto, unfolding(crate::specs::Holding::type_holds), using(validate::proofs::Chains::ok_passes, crate::proofs::HeldParts::rest_of))]
fn type_holds(n: usize, s: &[u8]) -> bool
    requires { n ≤ length s.now }
    ensures { result ≡ type_holds n s.now }
{
    let name = &s[..n];
    validate_content_type(name).is_ok() && is_utf8(name) && is_zero(&s[n..])
}

// The numbers are within limits and within a store of so many bytes; none is added to another before it is known to fit.
#[tactic(auto, unfolding(crate::specs::Holding::numbers_hold))]
fn numbers_hold(m: CpimMessage, store: usize) -> bool
    ensures { result ≡ numbers_hold m store }
{
    256 <= store
        && m.typelen <= 256
        && m.headerlen <= store - 256
        && m.contentlen <= store - 256 - m.headerlen
        && m.headers <= MAX_HEADERS
        && m.contents <= MAX_CONTENT_HEADERS
        && m.bodylen <= MAX_BODY_SIZE
}

#[tactic(auto, unfolding(crate::specs::Holding::sizes_hold))]
fn sizes_hold(h: CpimHeader, store: usize) -> bool
    ensures { result ≡ sizes_hold h store }
{
    h.size <= store
        && 16 <= h.size
        && h.valuelen <= h.size - 16
        && h.params <= MAX_PARAMS_PER_HEADER
}

// Whether record and head store hold a message.
#[tactic(auto, unfolding(crate::specs::Holding::message_holds), using(crate::proofs::MessageHeld::numbered, crate::proofs::HeldParts::part_of))]
pub fn message_holds(m: CpimMessage, head: &[u8]) -> bool
    ensures { result ≡ message_holds m head.now }
{
    if !numbers_hold(m, head.len()) {
        return false;
    }
    let from = 256 + m.headerlen;
    let to = from + m.contentlen;
    type_holds(m.typelen, &head[..256])
        && headers_hold(&head[256..from], m.headers)
        && entries_hold(Kind::Content, &head[from..to], m.contents)
}

// Whether record and header store hold a header alone.
#[tactic(auto, unfolding(crate::specs::Holding::header_holds, store_entry_check::specs::Kinds::value_check), using(crate::proofs::HeaderHeld::sized, crate::proofs::HeldParts::part_of))]
pub fn header_holds(h: CpimHeader, store: &[u8]) -> bool
    ensures { result ≡ header_holds h store.now }
{
    if !sizes_hold(h, store.len()) {
        return false;
    }
    let from = 16 + h.valuelen;
    let value = &store[16..from];
    is_zero(&store[..16])
        && value_passes(Kind::Header, value)
        && is_utf8(value)
        && entries_hold(Kind::Param, &store[from..h.size], h.params)
}
