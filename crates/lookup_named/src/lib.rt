// The headers of a name in what is held, as a part of the head store. Any record and any bytes may be lent.

#![tactic(auto)]

ghost use Rattle.std.proofs.Math.Option.{Option};
ghost use Rattle.format.specs.Message.{Message};
ghost use Rattle.format.specs.Layout.{layout_header, Held};
ghost use Rattle.format.specs.Lending.{head_lent};
ghost use Rattle.lookup_nth.specs.Listed.{Listed};
ghost use Rattle.lookup_named.specs.HeadersNamed.{headers_named};

use format::CpimMessage;
use lookup_nth::Entries;
use message_edit::headers_of;
use store_check::message_holds;
use utf8::is_utf8;

// The headers of a name; none for a name that is not UTF-8, and where no message is held.
pub fn headers_named<'a>(m: CpimMessage, head: &'a [u8], name: &[u8]) -> Entries<'a>
    ensures { (o : Option Message) → Held (head_lent m head.now) o → Listed layout_header (headers_named o name.now) result.bytes.now result.count }
{
    if !message_holds(m, head) || !is_utf8(name) {
        return Entries::NONE;
    }
    let g = headers_of(m, head, name);
    let from = 256 + g.at;
    let to = from + g.size;
    Entries {
        bytes: &head[from..to],
        count: g.many,
    }
}
