// Why a call is turned away (document 01, "Refusals by number", with what document 02 adds): what a call answers is a `Result` with this as
// its error. What each stands for, and its two numbers, is in specs/Told.antt.

ghost use Rattle.std.specs.Prelude.{◌≡◌};
ghost use Rattle.format.specs.Refusals.{◌carrying◌, table};
ghost use Rattle.format.specs.Told.{meant};

use crate::Numbers;

// A number beside a refusal is the actual length or count, or the bytes needed; 2 to the 64 less 1 for more.
#[derive(Clone, Copy, Debug, PartialEq, Eq)]
pub enum Refusal {
    TextTooLong(usize),
    TooFewSections,
    NoMessageCpim,
    LacksColon,
    BadEscape,
    NameEmpty,
    NameTooLong(usize),
    NameControl,
    NameReserved,
    ValueTooLong(usize),
    ContentControl,
    ParamNameEmpty,
    ParamNameTooLong(usize),
    ParamNameReserved,
    ParamValueTooLong(usize),
    ParamValueReserved,
    TypeEmpty,
    TypeTooLong(usize),
    TypeControl,
    TooManyHeaders(usize),
    TooManyParams(usize),
    TooManyContents(usize),
    BodyTooLong(usize),
    NotUtf8,
    NoRoom(usize),
    TooShort(usize),
    ParamLacksEquals,
    LacksSpace,
}

// A number that is carried, and none.
fn carrying(number: u64, carried: usize) -> Numbers
    ensures { result ≡ (number carrying carried) }
{
    Numbers {
        number,
        carried: carried as u64,
    }
}

fn alone(number: u64) -> Numbers
    ensures { result ≡ (number carrying 0) }
{
    Numbers { number, carried: 0 }
}

// The table.
impl From<Refusal> for Numbers {
    ghost from_gives = { λ r n. n ≡ table (meant r) };

    #[tactic(auto, unfolding(crate::specs::Refusals::table, crate::specs::Told::meant))]
    fn from(refusal: Refusal) -> Numbers {
        match refusal {
            Refusal::TextTooLong(n) => carrying(1, n),
            Refusal::TooFewSections => alone(2),
            Refusal::NoMessageCpim => alone(3),
            Refusal::LacksColon => alone(4),
            Refusal::BadEscape => alone(5),
            Refusal::NameEmpty => alone(6),
            Refusal::NameTooLong(n) => carrying(7, n),
            Refusal::NameControl => alone(8),
            Refusal::NameReserved => alone(9),
            Refusal::ValueTooLong(n) => carrying(10, n),
            Refusal::ContentControl => alone(11),
            Refusal::ParamNameEmpty => alone(12),
            Refusal::ParamNameTooLong(n) => carrying(13, n),
            Refusal::ParamNameReserved => alone(14),
            Refusal::ParamValueTooLong(n) => carrying(15, n),
            Refusal::ParamValueReserved => alone(16),
            Refusal::TypeEmpty => alone(17),
            Refusal::TypeTooLong(n) => carrying(18, n),
            Refusal::TypeControl => alone(19),
            Refusal::TooManyHeaders(n) => carrying(20, n),
            Refusal::TooManyParams(n) => carrying(21, n),
            Refusal::TooManyContents(n) => carrying(22, n),
            Refusal::BodyTooLong(n) => carrying(23, n),
            Refusal::NotUtf8 => alone(24),
            Refusal::NoRoom(n) => carrying(25, n),
            Refusal::TooShort(n) => carrying(26, n),
            Refusal::ParamLacksEquals => alone(27),
            Refusal::LacksSpace => alone(28),
        }
    }
}
