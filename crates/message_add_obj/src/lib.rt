// A header that was built alone, added to a message: its value and its parameters are parts of the header store, which is only
// read.
// The record and the store stay two parameters: a call is lent both and hands back the record alone.

#![tactic(auto)]

ghost use Rattle.std.specs.Result.{result_unwrap_or};
ghost use Rattle.format.specs.Lending.{head_lent, HeaderAdded};
ghost use Rattle.format.specs.Told.{told};

use format::{CpimHeader, CpimMessage, Refusal};
use message_rules::append_held;
use store_check::{header_holds, message_holds};
use store_splice::NewEntry;
use utf8::is_utf8;
use validate::{refuse_if, validate_header_name};

// One more value of a name, with its parameters: 25 carrying 0 where no message or no header is held, 24, name, 20, 25.
pub fn add_header_obj(
    m: CpimMessage,
    head: &mut [u8],
    name: &[u8],
    h: CpimHeader,
    store: &[u8],
) -> Result<CpimMessage, Refusal>
    ensures { HeaderAdded name.now (record { header = h; store = store.now }) (head_lent m head.old) (head_lent (result_unwrap_or result m) head.new) (told result) }
{
    let held = message_holds(m, head) & header_holds(h, store);
    refuse_if(!held, Refusal::NoRoom(0))?;
    refuse_if(!is_utf8(name), Refusal::NotUtf8)?;
    validate_header_name(name)?;
    let from = 16 + h.valuelen;
    let value = &store[16..from];
    let tail = &store[from..h.size];
    let new = NewEntry {
        params: h.params,
        tail,
        ..NewEntry::plain(name, value)
    };
    append_held(m, head, new)
}
