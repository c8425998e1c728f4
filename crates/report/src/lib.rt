// What `showcpim` and `wholecpim` print, over the bytes of an output: here what `showcpim` prints for its input (document 01, "Looking up";
// crates/format/specs/Showing.antt), in `telling` what `wholecpim` does, with `words` for both.

#![tactic(auto)]

pub mod telling;
mod words;

ghost use Rattle.std.specs.Prelude.{◌≡◌, true, ◌+◌, ◌≤◌, length};
ghost use Rattle.format.specs.Escaping.{escape};
ghost use Rattle.format.specs.Refusals.{accepted};
ghost use Rattle.format.specs.Message.{Message};
ghost use Rattle.format.specs.Layout.{Holds};
ghost use Rattle.format.specs.Lending.{head_lent};
ghost use Rattle.format.specs.Showing.{decimal, shown, show_numbers, show_message, showcpim};
ghost use Rattle.store_check.specs.Holding.{message_holds};
ghost use Rattle.output.specs.Put.{Put};
ghost use Rattle.report.specs.ShownLines.{message_lines};

use escape::escape_header_value;
use format::{CpimMessage, Numbers, Refusal};
use lookup::accessors::content_type;
use lookup::counts::count_params;
use output::decimals::put_decimal;
use output::{put, put_byte};
use read::parse_cpim;

// A line of a label and a number.
fn put_number(out: &mut [u8], at: usize, label: &[u8], n: u64) -> usize
    requires { at + length label.now + 22 ≤ length out.old }
    ensures { Put at (length label.now + 22) (shown label.now (decimal n)) out.old out.new result }
{
    let mut to = put(out, at, label);
    to = put_byte(out, to, b'=');
    to = put_decimal(out, to, n);
    put_byte(out, to, b'\n')
}

// A line of a label and a text of at most 256 bytes, escaped.
fn put_text(out: &mut [u8], at: usize, label: &[u8], s: &[u8]) -> usize
    requires { (at + length label.now + 1538 ≤ length out.old) × (length s.now ≤ 256) }
    ensures { Put at (length label.now + 1538) (shown label.now (escape s.now)) out.old out.new result }
{
    let mut end = put(out, at, label);
    end = put_byte(out, end, b'=');
    end = escape_header_value(out, end, s);
    put_byte(out, end, b'\n')
}

// The first two lines.
fn put_numbers(out: &mut [u8], numbers: Numbers) -> usize
    requires { 57 ≤ length out.old }
    ensures { Put 0 57 (show_numbers numbers) out.old out.new result }
{
    let to = put_number(out, 0, b"result", numbers.number);
    put_number(out, to, b"carried", numbers.carried)
}

// The lines of a message, by its numbers and its type.
fn put_message(
    out: &mut [u8],
    at: usize,
    headers: usize,
    params: usize,
    contents: usize,
    kind: &[u8],
    bodylen: usize,
) -> usize
    requires { (at + 1655 ≤ length out.old) × (length kind.now ≤ 256) }
    ensures { Put at 1655 (message_lines headers params contents kind.now bodylen) out.old out.new result }
{
    let mut to = put_number(out, at, b"headers", headers as u64);
    to = put_number(out, to, b"params", params as u64);
    to = put_number(out, to, b"contents", contents as u64);
    to = put_text(out, to, b"type", kind);
    put_number(out, to, b"body", bodylen as u64)
}

// The lines of the message held.
fn put_held_lines(out: &mut [u8], at: usize, m: CpimMessage, head: &[u8]) -> usize
    requires { (at + 1655 ≤ length out.old) × (message_holds m head.now ≡ true) }
    ensures { (k : Message) → Holds (head_lent m head.now) k → Put at 1655 (show_message (accepted k)) out.old out.new result }
{
    let params = count_params(m, head);
    let kind = content_type(m, head).unwrap_or(b"");
    put_message(out, at, m.headers, params, m.contents, kind, m.bodylen)
}

// A store to read in. Its length is all that is known of it, and all that reading asks.
fn store() -> [u8; 65536]
    ensures { length result ≡ 65536 }
{
    [0; 65536]
}

// All lines for an input: read in stores of 65,536 bytes, and refused by 26 where it is longer. Gives where they end.
pub fn show(input: &[u8], out: &mut [u8; 1712]) -> usize
    ensures { Put 0 1712 (showcpim input.now) out.old out.new result }
{
    if 65536 < input.len() {
        return put_numbers(out, Numbers::from(Refusal::TooShort(65537)));
    }
    let mut head = store();
    let mut body = store();
    match parse_cpim(input, &mut head, &mut body) {
        Ok(m) => {
            let accepted = Numbers {
                number: 0,
                carried: 0,
            };
            let to = put_numbers(out, accepted);
            put_held_lines(out, to, m, &head)
        }
        Err(refusal) => put_numbers(out, Numbers::from(refusal)),
    }
}
