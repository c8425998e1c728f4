// Document 01, "Looking up": the content headers of a message. What is handed out is a part of the head store. Any record and any
// bytes may be lent, and any n asked for.

ghost use Rattle.std.specs.Prelude.{◌≡◌, option_map};
ghost use Rattle.std.proofs.Math.Option.{Option};
ghost use Rattle.format.specs.Message.{Message};
ghost use Rattle.format.specs.Layout.{layout_entry, Held};
ghost use Rattle.format.specs.Lending.{head_lent};
ghost use Rattle.format.specs.LookingUp.{get_content};
ghost use Rattle.format.specs.Told.{given};
ghost use Rattle.lookup_nth.specs.Listed.{Listed};
ghost use Rattle.lookup.specs.OfHeld.{contents_held};

use format::CpimMessage;
use lookup_nth::{Entries, Entry};
use store_check::message_holds;

// The content headers; none where no message is held.
fn contents(m: CpimMessage, head: &[u8]) -> Entries<'_>
    ensures { (o : Option Message) → Held (head_lent m head.now) o → Listed layout_entry (contents_held o) result.bytes.now result.count }
{
    if !message_holds(m, head) {
        return Entries::NONE;
    }
    let from = 256 + m.headerlen;
    let to = from + m.contentlen;
    Entries {
        bytes: &head[from..to],
        count: m.contents,
    }
}

// The n-th content header.
pub fn content(m: CpimMessage, head: &[u8], n: usize) -> Option<Entry<'_>>
    ensures { (o : Option Message) → Held (head_lent m head.now) o → given (option_map (λ e. record { name = e.name.now; value = e.value.now }) result) ≡ get_content o n }
{
    contents(m, head).nth(n)
}
