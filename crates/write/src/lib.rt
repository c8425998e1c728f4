// Document 01, "Writing": `to_string`, on any record and any bytes. The length is known before the first byte is written: refused, it writes
// nothing.

#![tactic(auto)]

ghost use Rattle.std.specs.Prelude.{◌≡◌, true, ◌≤◌, length};
ghost use Rattle.std.specs.Result.{result_unwrap_or};
ghost use Rattle.std.proofs.Math.Option.{Option};
ghost use Rattle.format.specs.Bytes.{over};
ghost use Rattle.format.specs.Message.{Message};
ghost use Rattle.format.specs.LookingUp.{body_length_of};
ghost use Rattle.format.specs.Layout.{Held};
ghost use Rattle.format.specs.Told.{told};
ghost use Rattle.format.specs.Lending.{both_lent, Wrote};
ghost use Rattle.format.specs.Writing.{write, to_text};
ghost use Rattle.characters.specs.Lengths.{utf8_end};
ghost use Rattle.store_check.specs.Holding.{message_holds};
ghost use Rattle.store_check.specs.Decoding.{message_in};

use format::{CpimMessage, Refusal};
use store_check::message_holds;
use utf8::utf8_end;
use write_cursor::write_text;
use write_parts::measure::text_len;

// The text of a message that is held, with this body; `end` is where UTF-8 ends in it.
fn write_held(m: CpimMessage, head: &[u8], body: &[u8], end: usize, out: &mut [u8])
    requires { (message_holds m head.now ≡ true) × (end ≡ utf8_end body.now 0) × (length (write (message_in m head.now body.now)) ≤ length out.old) }
    ensures { out.new ≡ over (write (message_in m head.now body.now)) out.old }
{
    let from = 256 + m.headerlen;
    let to = from + m.contentlen;
    write_text(
        out,
        &head[256..from],
        m.headers,
        &head[..m.typelen],
        &head[from..to],
        m.contents,
        body,
        end,
    );
}

// 25 carrying 0, then 26; accepted, it hands back the text's length.
pub fn to_string(m: CpimMessage, head: &[u8], body: &[u8], out: &mut [u8]) -> Result<usize, Refusal>
    ensures wrote { Wrote (both_lent m head.now body.now) out.old out.new (told result) }
    ensures length { (o : Option Message) → Held (both_lent m head.now body.now) o → result_unwrap_or result 0 ≡ body_length_of (to_text o (length out.old)) }
{
    if !message_holds(m, head) {
        return Err(Refusal::NoRoom(0));
    }
    if body.len() < m.bodylen {
        return Err(Refusal::NoRoom(0));
    }
    let held = &body[..m.bodylen];
    let end = utf8_end(held, 0);
    let n = text_len(m, head, held, end);
    if out.len() < n {
        return Err(Refusal::TooShort(n));
    }
    write_held(m, head, held, end, out);
    Ok(n)
}
