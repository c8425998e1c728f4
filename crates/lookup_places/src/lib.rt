// Where everything stands that is held: the name and the value of each header, parameter and content header, by four numbers each
// (specs/Rows.antt); in modules the lookups of crates/lookup by place. Any record and any bytes may be lent.

#![tactic(auto)]

pub mod by_name;
pub mod spots;
pub mod standing;

ghost use Rattle.std.specs.Prelude.{◌≡◌, true, [], ◌∷◌, ◌+◌, ◌*◌, ◌≤◌, length, drop};
ghost use Rattle.format.specs.Bytes.{pasted, over};
ghost use Rattle.format.specs.Lending.{head_lent};
ghost use Rattle.format.specs.Told.{told};
ghost use Rattle.store_check.specs.Holding.{message_holds};
ghost use Rattle.lookup_places.specs.Rows.{Placed};
ghost use Rattle.lookup_places.specs.Fronts.{rows_in, fronted, rows_held};

use format::{CpimMessage, Refusal};
use lookup_nth::Entries;
use store_check::message_holds;
use store_entries::{name_len, param_count, value_len};

// A row over the numbers of an output, from a place on.
fn put_row(out: &mut [usize], k: usize, row: &[usize; 4])
    requires { k + 4 ≤ length out.old }
    ensures { out.new ≡ pasted k row.now out.old }
{
    let end = k + 4;
    out[k..end].copy_from_slice(row);
}

// The rows of so many entries and parameters, which stand from byte 256 on.
fn put_rows(s: &[u8], rows: usize, out: &mut [usize])
    requires { (fronted rows (drop 256 s.now) ≡ true) × (4 * rows ≤ length out.old) }
    ensures { out.new ≡ over (rows_in rows 256 (drop 256 s.now)) out.old }
{
    let mut at = 256;
    for i in 0..rows {
        let name = name_len(s, at);
        let value = value_len(s, at);
        put_row(out, 4 * i, &[at + 16, name, value, param_count(s, at)]);
        at += 16 + (name + value);
    }
}

// How many rows a message has that is held.
fn row_count(m: CpimMessage, head: &[u8]) -> usize
    requires { message_holds m head.now ≡ true }
    ensures { result ≡ rows_held m head.now }
{
    let to = 256 + m.headerlen;
    let headers = Entries {
        bytes: &head[256..to],
        count: m.headers,
    };
    m.headers + headers.count_params() + m.contents
}

// 25 carrying 0, then 26 carrying the bytes needed, 8 for each number.
pub fn places(m: CpimMessage, head: &[u8], out: &mut [usize]) -> Result<(), Refusal>
    ensures { Placed (head_lent m head.now) out.old out.new (told result) }
{
    if !message_holds(m, head) {
        return Err(Refusal::NoRoom(0));
    }
    let rows = row_count(m, head);
    let n = 4 * rows;
    if out.len() < n {
        return Err(Refusal::TooShort(8 * n));
    }
    put_rows(head, rows, out);
    Ok(())
}
