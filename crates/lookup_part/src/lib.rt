// The address in a value, as a part of it.

#![tactic(auto)]

pub mod opening;

ghost use Rattle.std.specs.Prelude.{◌≡◌, option_copied};
ghost use Rattle.format.specs.LookingUp.{address};
ghost use Rattle.format.specs.Told.{given};
ghost use Rattle.lookup_part.specs.AddressSpan.{span_of};

use crate::opening::opening;
use octets::finding::find_byte;

// Where a part stands in lent bytes: from a place up to another.
#[derive(Clone, Copy)]
pub struct Span {
    pub from: usize,
    pub to: usize,
}

// Address: between the first `<` of a value outside a quoted string and the next `>`.
pub fn address_span(value: &[u8]) -> Option<Span>
    ensures { given result ≡ span_of value.now }
{
    let at = opening(value)?;
    let from = at + 1;
    let rest = &value[from..];
    let len = find_byte(rest, b'>');
    if len == rest.len() {
        return None;
    }
    Some(Span {
        from,
        to: from + len,
    })
}

// The same as a part of the value.
pub fn address(value: &[u8]) -> Option<&[u8]>
    ensures { given (option_copied result) ≡ address value.now }
{
    let Span { from, to } = address_span(value)?;
    Some(&value[from..to])
}
