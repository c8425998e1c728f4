// What C is told: a record of numbers for each kind of answer, made of the `Result` that a call gives. Where the call is turned away the two
// numbers say why, and the rest of the record is what the caller had before.

ghost use Rattle.std.specs.Prelude.{◌≡◌, is_some};
ghost use Rattle.std.specs.Option.{unwrap_or};
ghost use Rattle.std.specs.Result.{result_unwrap_or};
ghost use Rattle.format.specs.Lending.{numbers_of, header_numbers};
ghost use Rattle.format.specs.Told.{told};
ghost use Rattle.read.specs.Heads.{message_in, body_in};

use format::{Answer, CpimHeader, CpimMessage, HeaderAnswer, Numbers, Refusal};
use read::Head;

// What a call answers that writes bytes: the two numbers, and how many the bytes are, 0 where it is refused.
#[repr(C)]
#[derive(Clone, Copy)]
pub struct LengthAnswer {
    pub number: u64,
    pub carried: u64,
    pub length: usize,
}

// What a reading that leaves the body where it stands answers: the two numbers, the record, whether the body stands in the text, and
// where it begins there.
#[repr(C)]
#[derive(Clone, Copy)]
pub struct HeadAnswer {
    pub number: u64,
    pub carried: u64,
    pub message: CpimMessage,
    pub in_text: bool,
    pub start: usize,
}

// What stands for no message, and for no header.
pub const EMPTY_MESSAGE: CpimMessage = CpimMessage {
    typelen: 0,
    headers: 0,
    headerlen: 0,
    contents: 0,
    contentlen: 0,
    bodylen: 0,
};

pub const EMPTY_HEADER: CpimHeader = CpimHeader {
    valuelen: 0,
    params: 0,
    size: 0,
};

// The two numbers.
#[tactic(auto, unfolding(format::specs::Told::told))]
pub fn numbers<T: Copy>(done: Result<T, Refusal>) -> Numbers
    ensures { result ≡ told done }
{
    match done {
        Ok(_) => Numbers {
            number: 0,
            carried: 0,
        },
        Err(refusal) => Numbers::from(refusal),
    }
}

// Of a call on a message.
pub fn answer(done: Result<CpimMessage, Refusal>, otherwise: CpimMessage) -> Answer
    ensures numbers { numbers_of result ≡ told done }
    ensures message { result.message ≡ result_unwrap_or done otherwise }
{
    let Numbers { number, carried } = numbers(done);
    Answer {
        number,
        carried,
        message: done.unwrap_or(otherwise),
    }
}

// Of a call on a header alone.
pub fn header_answer(done: Result<CpimHeader, Refusal>, otherwise: CpimHeader) -> HeaderAnswer
    ensures numbers { header_numbers result ≡ told done }
    ensures header { result.header ≡ result_unwrap_or done otherwise }
{
    let Numbers { number, carried } = numbers(done);
    HeaderAnswer {
        number,
        carried,
        header: done.unwrap_or(otherwise),
    }
}

// Of a reading that leaves the body where it stands.
pub fn head_answer(done: Result<Head, Refusal>) -> HeadAnswer
    ensures numbers { record { number = result.number; carried = result.carried } ≡ told done }
    ensures message { result.message ≡ message_in done }
    ensures inside { result.in_text ≡ is_some (body_in done) }
    ensures begins { result.start ≡ unwrap_or (body_in done) 0 }
{
    let Numbers { number, carried } = numbers(done);
    match done {
        Ok(Head { message, body }) => HeadAnswer {
            number,
            carried,
            message,
            in_text: body.is_some(),
            start: body.unwrap_or(0),
        },
        Err(_) => HeadAnswer {
            number,
            carried,
            message: EMPTY_MESSAGE,
            in_text: false,
            start: 0,
        },
    }
}

// Of a call that writes bytes.
pub fn length_answer(done: Result<usize, Refusal>) -> LengthAnswer
    ensures numbers { record { number = result.number; carried = result.carried } ≡ told done }
    ensures length { result.length ≡ result_unwrap_or done 0 }
{
    let Numbers { number, carried } = numbers(done);
    LengthAnswer {
        number,
        carried,
        length: done.unwrap_or(0),
    }
}
