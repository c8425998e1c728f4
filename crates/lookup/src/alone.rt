// Document 01, "Looking up": the value and the parameters of a header alone, as parts of the lent header store. Any record and any
// bytes may be lent, and any n asked for.

ghost use Rattle.std.specs.Prelude.{◌≡◌, option_copied, option_map};
ghost use Rattle.std.proofs.Math.Option.{Option};
ghost use Rattle.format.specs.Message.{LoneHeader};
ghost use Rattle.format.specs.Layout.{layout_entry, HeldAlone};
ghost use Rattle.format.specs.LookingUp.{alone_value, alone_param};
ghost use Rattle.format.specs.Told.{given};
ghost use Rattle.lookup_nth.specs.Listed.{Listed};
ghost use Rattle.lookup.specs.OfHeld.{params_held};

use format::CpimHeader;
use lookup_nth::{Entries, Entry};
use store_check::header_holds;

pub fn value(h: CpimHeader, store: &[u8]) -> Option<&[u8]>
    ensures { (o : Option LoneHeader) → HeldAlone h store.now o → given (option_copied result) ≡ alone_value o }
{
    if !header_holds(h, store) {
        return None;
    }
    let to = 16 + h.valuelen;
    Some(&store[16..to])
}

// The parameters; none where no header is held.
fn params(h: CpimHeader, store: &[u8]) -> Entries<'_>
    ensures { (o : Option LoneHeader) → HeldAlone h store.now o → Listed layout_entry (params_held o) result.bytes.now result.count }
{
    if !header_holds(h, store) {
        return Entries::NONE;
    }
    let from = 16 + h.valuelen;
    let to = h.size;
    Entries {
        bytes: &store[from..to],
        count: h.params,
    }
}

// The n-th parameter.
pub fn param(h: CpimHeader, store: &[u8], n: usize) -> Option<Entry<'_>>
    ensures { (o : Option LoneHeader) → HeldAlone h store.now o → given (option_map (λ e. record { name = e.name.now; value = e.value.now }) result) ≡ alone_param o n }
{
    params(h, store).nth(n)
}
