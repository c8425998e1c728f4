// A header line read and appended to the message that is held, by either reading: document 01, "Reading", and document 02, T-01. Its parts
// are found (`parts`), the name is checked and the parameters are read into room that is lent for them (`params`); then the value is read
// and the header appended (`values`).

#![tactic(auto)]

mod params;
mod parts;
mod values;

ghost use Rattle.std.specs.Prelude.{◌≡◌, true, ◌≤◌, length};
ghost use Rattle.std.specs.Result.{result_unwrap_or};
ghost use Rattle.format.specs.Bytes.{Bytes, semicolon, up_to};
ghost use Rattle.format.specs.Characters.{is_utf8};
ghost use Rattle.format.specs.Message.{Message};
ghost use Rattle.format.specs.Layout.{Holds};
ghost use Rattle.format.specs.Lending.{head_lent, lengths};
ghost use Rattle.format.specs.Reading.{read_line};
ghost use Rattle.format.specs.ReadingRfc.{line_reader};
ghost use Rattle.format.specs.Told.{told};
ghost use Rattle.store_check.specs.Holding.{message_holds};
ghost use Rattle.message_edit.specs.Edits.{Does};
ghost use Rattle.read_header_line.specs.Gathered.{Yields, Gathered};
ghost use Rattle.read_header_line.specs.HeaderLine.{name_by, params_by, space_by, read_front};

use crate::params::read_params;
use crate::parts::{misplaced_by, name_of, params_of, space_at, value_of};
use crate::values::append_read;
use format::{CpimHeader, CpimMessage, Manner, Refusal};
use octets::finding::find_byte;
use validate::validate_header_name;

// What stands in front of the value: the name is checked, then 28, then the parameters of the text front are read into the room.
fn scan_front(
    manner: Manner,
    name: &[u8],
    right: &[u8],
    at: usize,
    front: &[u8],
    stop: usize,
    room: &mut [u8],
) -> Result<CpimHeader, Refusal>
    requires space { at ≡ space_by manner right.now }
    requires stops { stop ≡ length (up_to semicolon front.now) }
    requires enough { 3376 ≤ length room.old }
    requires text { is_utf8 front.now ≡ true }
    ensures { (left : Bytes) → name.now ≡ name_by manner left → front.now ≡ params_by manner left right.now → Yields result (read_front manner left right.now) (λ h. Gathered h room.new) }
{
    validate_header_name(name)?;
    if misplaced_by(manner, right, at) {
        return Err(Refusal::LacksSpace);
    }
    read_params(manner, front, stop, room)
}

// A header line: first colon or 4; the name, 28 and the parameters; the value, unescaped (5), 10; then 20, then 25.
pub fn read_header_line(
    manner: Manner,
    line: &[u8],
    m: CpimMessage,
    head: &mut [u8],
    params: &mut [u8],
) -> Result<CpimMessage, Refusal>
    requires held { message_holds m head.old ≡ true }
    requires text { is_utf8 line.now ≡ true }
    requires scratch { 3376 ≤ length params.old }
    ensures { (k : Message) → Holds (head_lent m head.old) k → Does (head_lent m head.old) (head_lent (result_unwrap_or result m) head.new) (told result) (read_line (line_reader manner) (lengths (head_lent m head.old)) line.now k) }
{
    let colon = find_byte(line, b':');
    if line.len() <= colon {
        return Err(Refusal::LacksColon);
    }
    let left = &line[..colon];
    let right = &line[colon + 1..];
    let at = space_at(manner, right);
    let front = params_of(manner, left, right, at);
    let stop = find_byte(front, b';');
    let name = name_of(manner, left, stop);
    let h = scan_front(manner, name, right, at, front, stop, params)?;
    append_read(
        manner,
        m,
        head,
        name,
        value_of(manner, right, at),
        h.params,
        &params[16..h.size],
    )
}
