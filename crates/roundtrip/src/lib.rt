// Which messages come back whole by either reading (demand 3; document 02, T-01): yes or no for what is held, and where
// no, which clause of the condition fails first and for which entry. Any record and any bytes may be lent.

#![tactic(auto)]

mod clauses;

ghost use Rattle.std.specs.Prelude.{◌≡◌, true, List};
ghost use Rattle.std.proofs.Math.Option.{Option};
ghost use Rattle.format.specs.Bytes.{all};
ghost use Rattle.format.specs.Message.{Entry, Header, Message};
ghost use Rattle.format.specs.Layout.{layout_entry, layout_header, Held};
ghost use Rattle.format.specs.Lending.{both_lent};
ghost use Rattle.store_entries.specs.Stored.{shaped_all, entries_in};
ghost use Rattle.lookup_nth.specs.Listed.{Listed};
ghost use Rattle.roundtrip.specs.Clauses.{FirstFails, params_stand};
ghost use Rattle.roundtrip.specs.Loss.{told, none_lost, params_asked, name_asked, early, late, loss_held_by, loss_held, whole_held, whole_held_rfc, ReadsBack, ReadsBackRfc};

use crate::clauses::{first_failing, has_spaceless_params, is_clear, is_type};
use code_points::ends::clear_ends;
use format::{CpimMessage, Manner};
use lookup_nth::Entries;
use store_check::message_holds;
use utf8::is_utf8;

// Why a message does not come back: the clause that fails first, and for which header or content header, counted from 0.
#[derive(Clone, Copy)]
pub enum Lost {
    NoHeader,
    Params(usize),
    BodyNotUtf8,
    ContentType(usize),
    HeaderName(usize),
    ContentEnds(usize),
    TypeEnds,
    NothingHeld,
}

// The same for C: the clause by its number in specs/Loss.antt, 1 to 7; 0 where none fails and 9 where nothing is held, and 8 is never
// given. And the number of the header or content header, 0 where the clause speaks of none.
#[repr(C)]
#[derive(Clone, Copy)]
pub struct Loss {
    pub clause: usize,
    pub entry: usize,
}

impl From<Result<(), Lost>> for Loss {
    #[tactic(auto, unfolding(crate::specs::Loss::told))]
    fn from(lost: Result<(), Lost>) -> Loss
        ensures { result ≡ told lost }
    {
        let (clause, entry) = match lost {
            Ok(()) => (0, 0),
            Err(Lost::NoHeader) => (1, 0),
            Err(Lost::Params(entry)) => (2, entry),
            Err(Lost::BodyNotUtf8) => (3, 0),
            Err(Lost::ContentType(entry)) => (4, entry),
            Err(Lost::HeaderName(entry)) => (5, entry),
            Err(Lost::ContentEnds(entry)) => (6, entry),
            Err(Lost::TypeEnds) => (7, 0),
            Err(Lost::NothingHeld) => (9, 0),
        };
        Loss { clause, entry }
    }
}

// The first header whose parameters fail clause 2, by the manner of reading.
fn params_failing(manner: Manner, headers: Entries) -> Option<usize>
    requires { (shaped_all headers.count headers.bytes.now ≡ true) × (all params_stand (entries_in headers.count headers.bytes.now) ≡ true) }
    ensures { (xs : List Header) → Listed layout_header xs headers.entry.bytes.now headers.entry.count → FirstFails (params_asked manner) xs result }
{
    match manner {
        Manner::Source => first_failing(headers, |header| header.params.count == 0),
        Manner::Rfc => first_failing(headers, has_spaceless_params),
    }
}

// The same for the ends of names (clause 5): the second reading takes any.
fn names_failing(manner: Manner, headers: Entries) -> Option<usize>
    requires { shaped_all headers.count headers.bytes.now ≡ true }
    ensures { (xs : List Header) → Listed layout_header xs headers.entry.bytes.now headers.entry.count → FirstFails (name_asked manner) xs result }
{
    match manner {
        Manner::Source => first_failing(headers, |header| clear_ends(header.name)),
        Manner::Rfc => None,
    }
}

// Clauses 1 to 4.
fn early_loss(manner: Manner, headers: Entries, contents: Entries, body: &[u8]) -> Result<(), Lost>
    requires { (shaped_all headers.count headers.bytes.now ≡ true) × (all params_stand (entries_in headers.count headers.bytes.now) ≡ true) × (shaped_all contents.count contents.bytes.now ≡ true) }
    ensures { (xs : List Header) (ys : List Entry) → Listed layout_header xs headers.entry.bytes.now headers.entry.count → Listed layout_entry ys contents.entry.bytes.now contents.entry.count → told result ≡ early manner xs ys body.now none_lost }
{
    if headers.count == 0 {
        return Err(Lost::NoHeader);
    }
    if let Some(entry) = params_failing(manner, headers) {
        return Err(Lost::Params(entry));
    }
    if !is_utf8(body) {
        return Err(Lost::BodyNotUtf8);
    }
    if let Some(entry) = first_failing(contents, |content| !is_type(content.name)) {
        return Err(Lost::ContentType(entry));
    }
    Ok(())
}

// Clauses 5 to 7.
fn late_loss(manner: Manner, headers: Entries, contents: Entries, kind: &[u8]) -> Result<(), Lost>
    requires { (shaped_all headers.count headers.bytes.now ≡ true) × (shaped_all contents.count contents.bytes.now ≡ true) }
    ensures { (xs : List Header) (ys : List Entry) → Listed layout_header xs headers.entry.bytes.now headers.entry.count → Listed layout_entry ys contents.entry.bytes.now contents.entry.count → told result ≡ late manner xs ys kind.now }
{
    if let Some(entry) = names_failing(manner, headers) {
        return Err(Lost::HeaderName(entry));
    }
    if let Some(entry) = first_failing(contents, is_clear) {
        return Err(Lost::ContentEnds(entry));
    }
    if !clear_ends(kind) {
        return Err(Lost::TypeEnds);
    }
    Ok(())
}

// What a message held loses on the way through its text, by the manner in which header lines are read.
fn loss_by(manner: Manner, m: CpimMessage, head: &[u8], body: &[u8]) -> Result<(), Lost>
    ensures { (o : Option Message) → Held (both_lent m head.now body.now) o → told result ≡ loss_held_by manner o }
{
    if !message_holds(m, head) {
        return Err(Lost::NothingHeld);
    }
    if body.len() < m.bodylen {
        return Err(Lost::NothingHeld);
    }
    let from = 256 + m.headerlen;
    let to = from + m.contentlen;
    let size = m.bodylen;
    let typed = m.typelen;
    let headers = Entries {
        bytes: &head[256..from],
        count: m.headers,
    };
    let contents = Entries {
        bytes: &head[from..to],
        count: m.contents,
    };
    early_loss(manner, headers, contents, &body[0..size])?;
    late_loss(manner, headers, contents, &head[0..typed])
}

// What a message held loses on the way through its text.
pub fn loss_of(m: CpimMessage, head: &[u8], body: &[u8]) -> Loss
    ensures { (o : Option Message) → Held (both_lent m head.now body.now) o → result ≡ loss_held o }
{
    Loss::from(loss_by(Manner::Source, m, head, body))
}

// Whether reading its text, with room for it, gives the message held.
pub fn comes_back(m: CpimMessage, head: &[u8], body: &[u8]) -> bool
    ensures condition { (o : Option Message) → Held (both_lent m head.now body.now) o → result ≡ whole_held o }
    ensures theorem { ReadsBack (both_lent m head.now body.now) result }
{
    loss_by(Manner::Source, m, head, body).is_ok()
}

// Whether the second reading of its text, with room for it, gives the message held (document 02, T-01).
pub fn comes_back_rfc(m: CpimMessage, head: &[u8], body: &[u8]) -> bool
    ensures condition { (o : Option Message) → Held (both_lent m head.now body.now) o → result ≡ whole_held_rfc o }
    ensures theorem { ReadsBackRfc (both_lent m head.now body.now) result }
{
    loss_by(Manner::Rfc, m, head, body).is_ok()
}
