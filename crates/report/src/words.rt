// Words for what document 01 says by number (specs/Words.antt), over the bytes of an output: a refusal, an entry, why a message does not
// come back whole.

ghost use Rattle.std.specs.Prelude.{◌≡◌, ◌+◌, ◌≤◌, length, option_copied};
ghost use Rattle.format.specs.Refusals.{table};
ghost use Rattle.format.specs.Told.{given, meant};
ghost use Rattle.output.specs.Put.{Put};
ghost use Rattle.report.specs.Words.{condition, reason, carried_words, refused_words, entry_words, Near};

use escape::escape_header_value;
use format::{Numbers, Refusal};
use output::decimals::put_decimal;
use output::put;

// The condition of a refusal.
#[tactic(auto, unfolding(crate::specs::Words::condition, crate::specs::Words::conditions, crate::specs::Words::row, format::specs::Refusals::table, format::specs::Told::meant))]
fn condition(refusal: Refusal) -> &'static [u8]
    ensures { result.now ≡ condition (table (meant refusal)).number }
{
    match refusal {
        Refusal::TextTooLong(_) => b"text too long",
        Refusal::TooFewSections => b"fewer than 4 sections",
        Refusal::NoMessageCpim => b"no message/cpim",
        Refusal::LacksColon => b"header line lacks a colon",
        Refusal::BadEscape => b"bad escape",
        Refusal::NameEmpty => b"name empty",
        Refusal::NameTooLong(_) => b"name too long",
        Refusal::NameControl => b"ASCII control in name",
        Refusal::NameReserved => b"one of : ; = \\ \" in name",
        Refusal::ValueTooLong(_) => b"value too long",
        Refusal::ContentControl => b"ASCII control in content value",
        Refusal::ParamNameEmpty => b"parameter name empty",
        Refusal::ParamNameTooLong(_) => b"parameter name too long",
        Refusal::ParamNameReserved => b"ASCII control or ; = \\ \" in parameter name",
        Refusal::ParamValueTooLong(_) => b"parameter value too long",
        Refusal::ParamValueReserved => b"ASCII control or ; \\ \" in parameter value",
        Refusal::TypeEmpty => b"content type empty",
        Refusal::TypeTooLong(_) => b"content type too long",
        Refusal::TypeControl => b"ASCII control in content type",
        Refusal::TooManyHeaders(_) => b"too many headers",
        Refusal::TooManyParams(_) => b"too many parameters",
        Refusal::TooManyContents(_) => b"too many content headers",
        Refusal::BodyTooLong(_) => b"body too long",
        Refusal::NotUtf8 => b"text not UTF-8",
        Refusal::NoRoom(_) => b"head store too short",
        Refusal::TooShort(_) => b"input or body longer than there is room for",
        Refusal::ParamLacksEquals => b"parameter lacks =",
        Refusal::LacksSpace =>
            b"no space behind the colon, or neither a space nor ; right behind it",
    }
}

fn put_condition(out: &mut [u8], at: usize, refusal: Refusal) -> usize
    requires { at + 80 ≤ length out.old }
    ensures { Put at 80 (condition (table (meant refusal)).number) out.old out.new result }
{
    put(out, at, condition(refusal))
}

// Why a message does not come back whole, by the clause that fails: its number for C, which is all that `roundtrip::loss_of` answers.
#[tactic(auto, unfolding(crate::specs::Words::reason, crate::specs::Words::reasons, crate::specs::Words::row))]
fn reason(clause: usize) -> &'static [u8]
    ensures { result.now ≡ reason clause }
{
    match clause {
        0 => b"comes back whole",
        1 => b"it has no header: its text is refused, or read as another message",
        2 => b"has a parameter: it is written behind the colon and read as part of the value",
        3 => b"its body is not UTF-8: ill-formed bytes are written as U+FFFD",
        4 => b"is called Content-type: it is read as the type",
        5 => b"has white space at an end of its name: it is trimmed when read",
        6 => b"has white space at an end of its name or value: it is trimmed when read",
        7 => b"its type has white space at an end: it is trimmed when read",
        9 => b"nothing is held",
        _ => b"",
    }
}

pub fn put_reason(out: &mut [u8], at: usize, clause: usize) -> usize
    requires { at + 80 ≤ length out.old }
    ensures { Put at 80 (reason clause) out.old out.new result }
{
    put(out, at, reason(clause))
}

// The carried number, where there is one.
fn put_carried(out: &mut [u8], at: usize, carried: u64) -> usize
    requires { at + 23 ≤ length out.old }
    ensures { Put at 23 (carried_words carried) out.old out.new result }
{
    if carried == 0 {
        return at;
    }
    let mut to = put(out, at, b" (");
    to = put_decimal(out, to, carried);
    put(out, to, b")")
}

// A refusal.
pub fn put_refusal(out: &mut [u8], refusal: Refusal) -> usize
    requires { 134 ≤ length out.old }
    ensures { Put 0 134 (refused_words (table (meant refusal))) out.old out.new result }
{
    let Numbers { number, carried } = Numbers::from(refusal);
    let mut to = put(out, 0, b"refused: ");
    to = put_decimal(out, to, number);
    to = put(out, to, b", ");
    to = put_condition(out, to, refusal);
    put_carried(out, to, carried)
}

// An entry by its number, counted from 0 there and from 1 in the words, and its name; nothing where it is not found.
pub fn put_entry_words(
    out: &mut [u8],
    at: usize,
    kind: &[u8],
    n: usize,
    name: Option<&[u8]>,
) -> usize
    requires { (at + length kind.now + 814 ≤ length out.old) × Near n (given (option_copied name)) }
    ensures { Put at (length kind.now + 814) (entry_words kind.now n (given (option_copied name.entry))) out.old out.new result }
{
    let Some(name) = name else {
        return at;
    };
    let mut to = put(out, at, kind);
    to = put_decimal(out, to, (n + 1) as u64);
    to = put(out, to, b" in the order of names, ");
    to = escape_header_value(out, to, name);
    put(out, to, b", ")
}
