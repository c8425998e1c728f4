// The value of a header line, read in either manner, and the header appended to the message that is held: 5, 10, 20, 25.

ghost use Rattle.std.specs.Prelude.{◌≡◌, true, List, ◌<◌, length};
ghost use Rattle.std.specs.Result.{result_unwrap_or};
ghost use Rattle.format.specs.Escaping.{unescape_by};
ghost use Rattle.format.specs.Message.{Entry, Message};
ghost use Rattle.format.specs.Layout.{Holds};
ghost use Rattle.format.specs.Lending.{head_lent, lengths};
ghost use Rattle.format.specs.Reading.{checked_value};
ghost use Rattle.format.specs.Told.{told};
ghost use Rattle.store_check.specs.Holding.{message_holds};
ghost use Rattle.message_edit.specs.Edits.{Does};
ghost use Rattle.read_header_line.specs.Gathered.{Yields, Sizes};
ghost use Rattle.read_header_line.specs.HeaderLine.{append_read, Tail};

use format::{CpimMessage, Manner, Refusal};
use message_rules::append_held;
use octets::finding::find_byte;
use store_splice::{NewEntry, Notation};
use unescape::unescaped_len;
use validate::{MAX_HEADER_VALUE_LENGTH, validate_cpim_header_value};

// The length of a value with escapes: 5, 10.
fn escaped_len(manner: Manner, text: &[u8]) -> Result<usize, Refusal>
    ensures { Yields result (checked_value (unescape_by manner text.now)) (Sizes (unescape_by manner text.now)) }
{
    let size = unescaped_len(manner, text).ok_or(Refusal::BadEscape)?;
    if MAX_HEADER_VALUE_LENGTH < size {
        return Err(Refusal::ValueTooLong(size));
    }
    Ok(size)
}

// A header of a name and parameters, its value read from a text: with escapes it is unescaped straight into the store, and without a
// backslash it is the text itself. 5, 10, 20, 25.
pub fn append_read(
    manner: Manner,
    m: CpimMessage,
    head: &mut [u8],
    name: &[u8],
    text: &[u8],
    params: usize,
    tail: &[u8],
) -> Result<CpimMessage, Refusal>
    requires held { message_holds m head.old ≡ true }
    requires bytes { (length name.now < 256) × (params < 256) × (length tail.now < 65536) }
    ensures { (k : Message) (ps : List Entry) → Holds (head_lent m head.old) k → Tail ps params tail.now → Does (head_lent m head.old) (head_lent (result_unwrap_or result m) head.new) (told result) (append_read name.now (checked_value (unescape_by manner text.now)) ps (lengths (head_lent m head.old)) k) }
{
    let plain = NewEntry {
        name,
        text,
        notation: Notation::Plain,
        size: text.len(),
        params,
        tail,
    };
    if find_byte(text, b'\\') == text.len() {
        validate_cpim_header_value(text)?;
        return append_held(m, head, plain);
    }
    let escaped = NewEntry {
        notation: Notation::Escaped(manner),
        size: escaped_len(manner, text)?,
        ..plain
    };
    append_held(m, head, escaped)
}
