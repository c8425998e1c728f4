// The parameters of a header line, which stand between `;`: left of its colon by document 01, "Reading", and right of it by document
// 02, T-01. They are put together in room that is lent for them, as those of a header alone with an empty value: ten of
// 16 + 64 + 256 bytes behind 16 bytes are 3,376, so there is always room.

ghost use Rattle.std.specs.Prelude.{◌≡◌, true, List, [], ◌∷◌, ◌≤◌, length};
ghost use Rattle.format.specs.Bytes.{semicolon, up_to, pieces, split};
ghost use Rattle.format.specs.Characters.{is_utf8};
ghost use Rattle.format.specs.Message.{Entry};
ghost use Rattle.format.specs.Reading.{each};
ghost use Rattle.read_header_line.specs.Gathered.{Yields, Standing, Gathered};
ghost use Rattle.read_header_line.specs.HeaderLine.{param_reader};

use crate::parts::{lacking, taken};
use format::{CpimHeader, Manner, Refusal};
use header::set_param_held;
use octets::copy_at;
use octets::finding::find_byte;
use sections::fields::{has, past, up_to};

// A header alone with an empty value and no parameter.
fn none_read() -> CpimHeader
    ensures { result ≡ record { valuelen = 0; params = 0; size = 16 } }
{
    CpimHeader {
        valuelen: 0,
        params: 0,
        size: 16,
    }
}

// A part with `=` is name and value, by the first reading trimmed, checked, then 21 even when replacing. A part without `=` is skipped, or
// by the second reading refused.
fn read_param(
    manner: Manner,
    h: CpimHeader,
    room: &mut [u8],
    part: &[u8],
) -> Result<CpimHeader, Refusal>
    requires standing { (ps : List Entry) × Standing h room.old ps }
    requires enough { 3376 ≤ length room.old }
    requires text { is_utf8 part.now ≡ true }
    ensures { (ps : List Entry) → Standing h room.old ps → Yields result (param_reader manner part.now ps) (λ k. Standing k room.new) }
{
    if !has(part, b'=') {
        lacking(manner)?;
        return Ok(h);
    }
    set_param_held(
        h,
        room,
        taken(manner, up_to(part, b'=')),
        taken(manner, past(part, b'=')),
    )
}

// The parameters of the parts between `;`, one after another, from none on.
fn read_param_parts(manner: Manner, parts: &[u8], room: &mut [u8]) -> Result<CpimHeader, Refusal>
    requires enough { 3376 ≤ length room.old }
    requires text { is_utf8 parts.now ≡ true }
    ensures { Yields result (each (param_reader manner) (pieces (split (semicolon ∷ []) parts.now)) []) (λ h. Standing h room.new) }
{
    copy_at(room, 0, &[0; 16]);
    let mut h = none_read();
    let mut rest = parts;
    loop {
        let (part, found) = rest.split_at(find_byte(rest, b';'));
        h = read_param(manner, h, room, part)?;
        let [_, behind @ ..] = found else {
            return Ok(h);
        };
        rest = behind;
    }
}

// The parameters of a text, which stand behind its first stop bytes. Without a `;` there are none, and the room is left as it is.
pub fn read_params(
    manner: Manner,
    front: &[u8],
    stop: usize,
    room: &mut [u8],
) -> Result<CpimHeader, Refusal>
    requires stops { stop ≡ length (up_to semicolon front.now) }
    requires enough { 3376 ≤ length room.old }
    requires text { is_utf8 front.now ≡ true }
    ensures { Yields result (each (param_reader manner) (split (semicolon ∷ []) front.now).rest []) (λ h. Gathered h room.new) }
{
    if front.len() <= stop {
        return Ok(none_read());
    }
    read_param_parts(manner, &front[stop + 1..], room)
}
