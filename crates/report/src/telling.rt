// Whether a notice comes back whole, and if not what is lost and why, in words (specs/Telling.antt): what the program `wholecpim` prints,
// over the bytes of an output.

ghost use Rattle.std.specs.Prelude.{◌≡◌, true, ◌+◌, ◌≤◌, length, option_copied};
ghost use Rattle.format.specs.Message.{Message, name_of, entry_name};
ghost use Rattle.format.specs.Layout.{Holds};
ghost use Rattle.format.specs.Lending.{head_lent};
ghost use Rattle.format.specs.LookingUp.{nth, mapped};
ghost use Rattle.format.specs.Told.{given};
ghost use Rattle.store_check.specs.Holding.{message_holds};
ghost use Rattle.output.specs.Put.{Put};
ghost use Rattle.report.specs.Telling.{of_header, of_content, subject, loss_words, wholecpim};

use crate::store;
use crate::words::{put_entry_words, put_reason, put_refusal};
use format::{CpimMessage, Refusal};
use lookup::content_headers::content;
use lookup_nth::Entries;
use output::{put, put_byte};
use read::parse_cpim;
use roundtrip::loss_of;

// The clause speaks of one header.
#[tactic(auto, unfolding(crate::specs::Telling::of_header))]
fn of_header(clause: usize) -> bool
    ensures { result ≡ of_header clause }
{
    matches!(clause, 2 | 5)
}

// The clause speaks of one content header.
#[tactic(auto, unfolding(crate::specs::Telling::of_content))]
fn of_content(clause: usize) -> bool
    ensures { result ≡ of_content clause }
{
    matches!(clause, 4 | 6)
}

// The name of the n-th header in map order.
fn header_name(m: CpimMessage, head: &[u8], n: usize) -> Option<&[u8]>
    requires { message_holds m head.now ≡ true }
    ensures { (k : Message) → Holds (head_lent m head.now) k → given (option_copied result) ≡ mapped name_of (nth n k.headers) }
{
    let to = 256 + m.headerlen;
    let headers = Entries {
        bytes: &head[256..to],
        count: m.headers,
    };
    let header = headers.nth(n)?;
    Some(header.name)
}

// The name of the n-th content header in map order.
fn content_name(m: CpimMessage, head: &[u8], n: usize) -> Option<&[u8]>
    requires { message_holds m head.now ≡ true }
    ensures { (k : Message) → Holds (head_lent m head.now) k → given (option_copied result) ≡ mapped entry_name (nth n k.contents) }
{
    let header = content(m, head, n)?;
    Some(header.name)
}

// The entry that a clause fails for.
fn put_subject(
    out: &mut [u8],
    at: usize,
    clause: usize,
    entry: usize,
    m: CpimMessage,
    head: &[u8],
) -> usize
    requires { (at + 829 ≤ length out.old) × (message_holds m head.now ≡ true) }
    ensures { (k : Message) → Holds (head_lent m head.now) k → Put at 829 (subject k clause entry) out.old out.new result }
{
    if of_header(clause) {
        put_entry_words(out, at, b"header ", entry, header_name(m, head, entry))
    } else if of_content(clause) {
        put_entry_words(
            out,
            at,
            b"content header ",
            entry,
            content_name(m, head, entry),
        )
    } else {
        at
    }
}

// What is lost, and why.
fn put_loss(out: &mut [u8], clause: usize, entry: usize, m: CpimMessage, head: &[u8]) -> usize
    requires { (935 ≤ length out.old) × (message_holds m head.now ≡ true) }
    ensures { (k : Message) → Holds (head_lent m head.now) k → Put 0 935 (loss_words k (record { clause = clause; entry = entry })) out.old out.new result }
{
    if clause == 0 {
        return put_reason(out, 0, 0);
    }
    let mut to = put(out, 0, b"does not come back whole: ");
    to = put_subject(out, to, clause, entry, m, head);
    put_reason(out, to, clause)
}

// The line for an input: read in stores of 65,536 bytes, and refused by 26 where it is longer. Gives where it ends.
pub fn tell(input: &[u8], out: &mut [u8; 936]) -> usize
    ensures { Put 0 936 (wholecpim input.now) out.old out.new result }
{
    if 65536 < input.len() {
        let long = put_refusal(out, Refusal::TooShort(65537));
        return put_byte(out, long, b'\n');
    }
    let mut head = store();
    let mut body = store();
    match parse_cpim(input, &mut head, &mut body) {
        Ok(m) => {
            let l = loss_of(m, &head, &body);
            let to = put_loss(out, l.clause, l.entry, m, &head);
            put_byte(out, to, b'\n')
        }
        Err(refusal) => {
            let no = put_refusal(out, refusal);
            put_byte(out, no, b'\n')
        }
    }
}
