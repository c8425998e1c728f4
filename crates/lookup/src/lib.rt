// Document 01, "Looking up": here the values and parameters of a name; in modules type and body, content headers, how many there are, and
// a header alone. What is handed out is a part of the lent store. Any record and any bytes may be lent, and any n asked for.

#![tactic(auto)]

pub mod accessors;
pub mod alone;
pub mod content_headers;
pub mod counts;

ghost use Rattle.std.specs.Prelude.{◌≡◌, option_copied, option_map};
ghost use Rattle.std.proofs.Math.Option.{Option};
ghost use Rattle.format.specs.Message.{Message};
ghost use Rattle.format.specs.Layout.{Held};
ghost use Rattle.format.specs.Lending.{head_lent};
ghost use Rattle.format.specs.LookingUp.{get_header, get_header_value, get_param};
ghost use Rattle.format.specs.Told.{given};

use format::CpimMessage;
use lookup_named::headers_named;
use lookup_nth::Entry;

// The n-th value of a name.
pub fn get_header_value<'a>(
    m: CpimMessage,
    head: &'a [u8],
    name: &[u8],
    n: usize,
) -> Option<&'a [u8]>
    ensures { (o : Option Message) → Held (head_lent m head.now) o → given (option_copied result) ≡ get_header_value o name.now n }
{
    let header = headers_named(m, head, name).nth(n)?;
    Some(header.value)
}

// The first value of a name.
pub fn get_header<'a>(m: CpimMessage, head: &'a [u8], name: &[u8]) -> Option<&'a [u8]>
    ensures { (o : Option Message) → Held (head_lent m head.now) o → given (option_copied result) ≡ get_header o name.now }
{
    get_header_value(m, head, name, 0)
}

// The n-th parameter of the k-th value of a name.
pub fn get_param<'a>(
    m: CpimMessage,
    head: &'a [u8],
    name: &[u8],
    k: usize,
    n: usize,
) -> Option<Entry<'a>>
    ensures { (o : Option Message) → Held (head_lent m head.now) o → given (option_map (λ e. record { name = e.name.now; value = e.value.now }) result) ≡ get_param o name.now k n }
{
    let header = headers_named(m, head, name).nth(k)?;
    header.params.nth(n)
}
