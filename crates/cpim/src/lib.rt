// What others link: reading, writing, the calls on a message and on a header alone, what comes back, and (lookups.rt) the lookups, as C
// functions on byte slices and numbers, each with the contract of the function that it passes on. A slice crosses as its place and its
// length, a record as its numbers in the order in which answers.rt, crates/format, read_split, lookup_places (spots.rt) and roundtrip declare it.
// What is lent to be written must overlap nothing else that is lent.

#![tactic(auto)]

mod answers;
mod lookups;

ghost use Rattle.std.specs.Prelude.{◌≡◌, length};
ghost use Rattle.std.proofs.Math.Option.{Option};
ghost use Rattle.format.specs.Refusals.{numbers};
ghost use Rattle.format.specs.Message.{Message};
ghost use Rattle.format.specs.Calls.{set_body, set_header, add_header, add_content_header, with_from, with_to, with_datetime, with_subject, with_subject_lang, with_cc, with_ns, with_require, with_content_header};
ghost use Rattle.format.specs.LookingUp.{find_body, body_length_of, buffer_after};
ghost use Rattle.format.specs.Writing.{to_text};
ghost use Rattle.format.specs.ReadingRfc.{read_header_rfc};
ghost use Rattle.format.specs.Layout.{empty_message, Holds, Held};
ghost use Rattle.format.specs.Lending.{head_lent, both_lent, lengths, numbers_of, header_numbers, Changed, Made, ParsedWith, Parsed, Wrote, MadeHeader, ParamSet, HeaderAdded};
ghost use Rattle.format.specs.Runs.{Run};
ghost use Rattle.format.specs.Demand3.{after};
ghost use Rattle.calls_script.specs.Script.{state, calls_in};
ghost use Rattle.cpim.specs.Heads.{HeadParsedWith, HeadParsed};
ghost use Rattle.roundtrip.specs.Loss.{loss_held, whole_held, whole_held_rfc, ReadsBack, ReadsBackRfc};

use crate::answers::{
    EMPTY_HEADER, EMPTY_MESSAGE, HeadAnswer, LengthAnswer, answer, head_answer, header_answer,
    length_answer,
};
use format::{Answer, CpimHeader, CpimMessage, HeaderAnswer};
use roundtrip::Loss;

#[unsafe(no_mangle)]
pub extern "C" fn cpim_parse(text: &[u8], head: &mut [u8], body: &mut [u8]) -> Answer
    ensures { Parsed text.now (both_lent empty_message head.old body.old) (both_lent result.message head.new body.new) (numbers_of result) }
{
    answer(read::parse_cpim(text, head, body), EMPTY_MESSAGE)
}

#[unsafe(no_mangle)]
pub extern "C" fn cpim_parse_rfc(text: &[u8], head: &mut [u8], body: &mut [u8]) -> Answer
    ensures { ParsedWith read_header_rfc text.now (both_lent empty_message head.old body.old) (both_lent result.message head.new body.new) (numbers_of result) }
{
    answer(read::parse_cpim_rfc(text, head, body), EMPTY_MESSAGE)
}

#[unsafe(no_mangle)]
pub extern "C" fn cpim_parse_head(text: &[u8], head: &mut [u8]) -> HeadAnswer
    ensures { HeadParsed text.now (head_lent empty_message head.old) (head_lent result.message head.new) result }
{
    head_answer(read::parse_head(text, head))
}

#[unsafe(no_mangle)]
pub extern "C" fn cpim_parse_head_rfc(text: &[u8], head: &mut [u8]) -> HeadAnswer
    ensures { HeadParsedWith read_header_rfc text.now (head_lent empty_message head.old) (head_lent result.message head.new) result }
{
    head_answer(read::parse_head_rfc(text, head))
}

#[unsafe(no_mangle)]
pub extern "C" fn cpim_read_body(text: &[u8], buffer: &mut [u8]) -> LengthAnswer
    ensures answered { record { number = result.number; carried = result.carried } ≡ numbers (find_body text.now (length buffer.old)) }
    ensures length { result.length ≡ body_length_of (find_body text.now (length buffer.old)) }
    ensures written { buffer.new ≡ buffer_after text.now buffer.old }
{
    length_answer(read_split::read_body(text, buffer))
}

#[unsafe(no_mangle)]
pub extern "C" fn cpim_new(
    content_type: &[u8],
    body: &[u8],
    head: &mut [u8],
    store: &mut [u8],
) -> Answer
    ensures { Made content_type.now body.now (both_lent empty_message head.old store.old) (both_lent result.message head.new store.new) (numbers_of result) }
{
    answer(message::new(content_type, body, head, store), EMPTY_MESSAGE)
}

#[unsafe(no_mangle)]
pub extern "C" fn cpim_set_body(
    m: CpimMessage,
    head: &[u8],
    store: &mut [u8],
    body: &[u8],
) -> Answer
    ensures { Changed (set_body body.now) (both_lent m head.now store.old) (both_lent result.message head.now store.new) (numbers_of result) }
{
    answer(message::set_body(m, head, store, body), m)
}

#[unsafe(no_mangle)]
pub extern "C" fn cpim_set_header(
    m: CpimMessage,
    head: &mut [u8],
    name: &[u8],
    value: &[u8],
) -> Answer
    ensures { Changed (set_header name.now value.now) (head_lent m head.old) (head_lent result.message head.new) (numbers_of result) }
{
    answer(message::set_header(m, head, name, value), m)
}

#[unsafe(no_mangle)]
pub extern "C" fn cpim_add_header(
    m: CpimMessage,
    head: &mut [u8],
    name: &[u8],
    value: &[u8],
) -> Answer
    ensures { Changed (add_header name.now value.now) (head_lent m head.old) (head_lent result.message head.new) (numbers_of result) }
{
    answer(message::add_header(m, head, name, value), m)
}

#[unsafe(no_mangle)]
pub extern "C" fn cpim_add_content_header(
    m: CpimMessage,
    head: &mut [u8],
    name: &[u8],
    value: &[u8],
) -> Answer
    ensures { Changed (add_content_header name.now value.now) (head_lent m head.old) (head_lent result.message head.new) (numbers_of result) }
{
    answer(message::add_content_header(m, head, name, value), m)
}

#[unsafe(no_mangle)]
pub extern "C" fn cpim_add_header_obj(
    m: CpimMessage,
    head: &mut [u8],
    name: &[u8],
    h: CpimHeader,
    store: &[u8],
) -> Answer
    ensures { HeaderAdded name.now (record { header = h; store = store.now }) (head_lent m head.old) (head_lent result.message head.new) (numbers_of result) }
{
    answer(message_add_obj::add_header_obj(m, head, name, h, store), m)
}

#[unsafe(no_mangle)]
pub extern "C" fn cpim_with_from(m: CpimMessage, head: &mut [u8], from: &[u8]) -> Answer
    ensures { Changed (with_from from.now) (head_lent m head.old) (head_lent result.message head.new) (numbers_of result) }
{
    answer(message::builders::with_from(m, head, from), m)
}

#[unsafe(no_mangle)]
pub extern "C" fn cpim_with_to(m: CpimMessage, head: &mut [u8], to: &[u8]) -> Answer
    ensures { Changed (with_to to.now) (head_lent m head.old) (head_lent result.message head.new) (numbers_of result) }
{
    answer(message::builders::with_to(m, head, to), m)
}

#[unsafe(no_mangle)]
pub extern "C" fn cpim_with_datetime(m: CpimMessage, head: &mut [u8], datetime: &[u8]) -> Answer
    ensures { Changed (with_datetime datetime.now) (head_lent m head.old) (head_lent result.message head.new) (numbers_of result) }
{
    answer(message::builders::with_datetime(m, head, datetime), m)
}

#[unsafe(no_mangle)]
pub extern "C" fn cpim_with_subject(m: CpimMessage, head: &mut [u8], subject: &[u8]) -> Answer
    ensures { Changed (with_subject subject.now) (head_lent m head.old) (head_lent result.message head.new) (numbers_of result) }
{
    answer(message::builders::with_subject(m, head, subject), m)
}

#[unsafe(no_mangle)]
pub extern "C" fn cpim_with_cc(m: CpimMessage, head: &mut [u8], cc: &[u8]) -> Answer
    ensures { Changed (with_cc «cc».now) (head_lent m head.old) (head_lent result.message head.new) (numbers_of result) }
{
    answer(message::builders::with_cc(m, head, cc), m)
}

#[unsafe(no_mangle)]
pub extern "C" fn cpim_with_require(m: CpimMessage, head: &mut [u8], feature: &[u8]) -> Answer
    ensures { Changed (with_require feature.now) (head_lent m head.old) (head_lent result.message head.new) (numbers_of result) }
{
    answer(message::builders::with_require(m, head, feature), m)
}

#[unsafe(no_mangle)]
pub extern "C" fn cpim_with_subject_lang(
    m: CpimMessage,
    head: &mut [u8],
    subject: &[u8],
    lang: &[u8],
) -> Answer
    ensures { Changed (with_subject_lang subject.now lang.now) (head_lent m head.old) (head_lent result.message head.new) (numbers_of result) }
{
    answer(
        message::builders::with_subject_lang(m, head, subject, lang),
        m,
    )
}

#[unsafe(no_mangle)]
pub extern "C" fn cpim_with_ns(m: CpimMessage, head: &mut [u8], prefix: &[u8], uri: &[u8]) -> Answer
    ensures { Changed (with_ns prefix.now uri.now) (head_lent m head.old) (head_lent result.message head.new) (numbers_of result) }
{
    answer(message::builders::with_ns(m, head, prefix, uri), m)
}

#[unsafe(no_mangle)]
pub extern "C" fn cpim_with_content_header(
    m: CpimMessage,
    head: &mut [u8],
    name: &[u8],
    value: &[u8],
) -> Answer
    ensures { Changed (with_content_header name.now value.now) (head_lent m head.old) (head_lent result.message head.new) (numbers_of result) }
{
    answer(
        message::builders::with_content_header(m, head, name, value),
        m,
    )
}

// A script of changing calls (crates/calls_script/specs/Script.antt), run one behind another; the record is the last call's.
#[unsafe(no_mangle)]
pub extern "C" fn cpim_run(
    script: &[u8],
    m: CpimMessage,
    head: &mut [u8],
    body: &mut [u8],
) -> CpimMessage
    ensures run { Run (state m head.old body.old) (calls_in script.now) (state result head.new body.new) }
    ensures held { (k : Message) → Holds (both_lent m head.old body.old) k → Holds (both_lent result head.new body.new) (after (lengths (both_lent m head.old body.old)) k (calls_in script.now)) }
{
    calls_run::run(script, m, head, body)
}

#[unsafe(no_mangle)]
pub extern "C" fn cpim_to_string(
    m: CpimMessage,
    head: &[u8],
    body: &[u8],
    out: &mut [u8],
) -> LengthAnswer
    ensures wrote { Wrote (both_lent m head.now body.now) out.old out.new (record { number = result.number; carried = result.carried }) }
    ensures length { (o : Option Message) → Held (both_lent m head.now body.now) o → result.length ≡ body_length_of (to_text o (length out.old)) }
{
    length_answer(write::to_string(m, head, body, out))
}

// Whether reading its text, with room for it, gives the message held.
#[unsafe(no_mangle)]
pub extern "C" fn cpim_comes_back(m: CpimMessage, head: &[u8], body: &[u8]) -> bool
    ensures condition { (o : Option Message) → Held (both_lent m head.now body.now) o → result ≡ whole_held o }
    ensures theorem { ReadsBack (both_lent m head.now body.now) result }
{
    roundtrip::comes_back(m, head, body)
}

// Whether the second reading of its text does.
#[unsafe(no_mangle)]
pub extern "C" fn cpim_comes_back_rfc(m: CpimMessage, head: &[u8], body: &[u8]) -> bool
    ensures condition { (o : Option Message) → Held (both_lent m head.now body.now) o → result ≡ whole_held_rfc o }
    ensures theorem { ReadsBackRfc (both_lent m head.now body.now) result }
{
    roundtrip::comes_back_rfc(m, head, body)
}

// Where the first reading does not: the clause of demand 3 that fails first, and for which entry.
#[unsafe(no_mangle)]
pub extern "C" fn cpim_loss(m: CpimMessage, head: &[u8], body: &[u8]) -> Loss
    ensures { (o : Option Message) → Held (both_lent m head.now body.now) o → result ≡ loss_held o }
{
    roundtrip::loss_of(m, head, body)
}

#[unsafe(no_mangle)]
pub extern "C" fn cpim_header_new(value: &[u8], store: &mut [u8]) -> HeaderAnswer
    ensures { MadeHeader value.now store.old (record { header = result.header; store = store.new }) (header_numbers result) }
{
    header_answer(header::new(value, store), EMPTY_HEADER)
}

#[unsafe(no_mangle)]
pub extern "C" fn cpim_header_with_param(
    h: CpimHeader,
    store: &mut [u8],
    name: &[u8],
    value: &[u8],
) -> HeaderAnswer
    ensures { ParamSet name.now value.now (record { header = h; store = store.old }) (record { header = result.header; store = store.new }) (header_numbers result) }
{
    header_answer(header::with_param(h, store, name, value), h)
}
