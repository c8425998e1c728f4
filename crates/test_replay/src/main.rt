// Replays a list of the source's answers through the compiled functions: texts read, texts read and written, and lists of calls begun by a
// text read or by `new`. Prints how many agree, by kind, and the first answer that does not.
//
// The list, the file `stdin`, is records one behind another: a size in four bytes, low one first, and so many bytes. A record is its kind
// in one byte (1 a text read; 2 a text read and written; 3 a list of calls begun by a text read, and written; 4 one begun by `new`, and
// written), then eight parts, each a length in four bytes, low one first, and so many bytes: the text, or the type; the body for `new`;
// the script of calls (crates/calls_script/specs/Script.antt); the refusal's number and the carried one, four bytes each; the type, the
// entries of the head store, and the body of the message held; its text. The last four are empty where the beginning is refused. The
// source made the list, but for the text where a header value has white space that is no control character at an end: it follows document
// 02, T-03. rust/beside/src/bin/record says how.

#![tactic(auto)]

use calls_script::{argument_at, argument_end, number_at};
use calls_write::begun::{new_and_run, read_and_run};
use format::{CpimMessage, Numbers, Refusal};
use input::read_whole;
use read::parse_cpim;
use std::io::Read;
use std::time::Clock;
use std::{fmt, io};
use write::to_string;

// What differs in a record.
#[derive(Clone, Copy)]
enum Difference {
    Number,
    Carried,
    Left,
    Message,
    Text,
}

impl fmt::Display for Difference {
    fn fmt<W: fmt::Write>(&self, f: &mut fmt::Formatter<W>) -> fmt::Result {
        f.write_str(match self {
            Difference::Number => "the refusal's number",
            Difference::Carried => "the carried number",
            Difference::Left => "what a refusal leaves",
            Difference::Message => "the message held",
            Difference::Text => "its text",
        })
    }
}

// How many records of a kind were asked, and how many agree.
#[derive(Clone, Copy, Default)]
struct Tally {
    asked: u64,
    agreed: u64,
}

// The first n bytes, all of them where there are fewer.
fn first<'a>(s: &'a [u8], n: usize) -> &'a [u8] {
    &s[..n.min(s.len())]
}

// The place behind the part at a place of a record; None where it is cut off.
fn part_end(item: &[u8], at: usize) -> Option<usize> {
    if item.len() < at {
        return None;
    }
    argument_end(item, at)
}

// The part at a place; None where it is cut off.
fn part_at<'a>(item: &'a [u8], at: usize) -> Option<&'a [u8]> {
    if item.len() < at {
        return None;
    }
    argument_end(item, at)?;
    Some(argument_at(item, at))
}

// The n-th part of a record; nothing where it is cut off.
fn nth<'a>(item: &'a [u8], n: usize) -> &'a [u8] {
    let mut at = 1;
    for _ in 0..n {
        at = part_end(item, at).unwrap_or(item.len());
    }
    part_at(item, at).unwrap_or(&item[..0])
}

// A number of four bytes.
fn number(s: &[u8], at: usize) -> u64 {
    if s.len() < 4 || s.len() - 4 < at {
        return 0;
    }
    number_at(s, at) as u64
}

// From a place on the store has s.
fn has_at(store: &[u8], at: usize, s: &[u8]) -> bool {
    store.get(at..).is_some_and(|rest| rest.starts_with(s))
}

// A refused reading leaves zeros, a refused `new` all as it was.
fn untouched(kind: u8, head: &[u8], body: &[u8]) -> bool {
    let old = if kind == 4 { 7 } else { 0 };
    head.iter().all(|b| *b == old) && body.iter().all(|b| *b == old)
}

// The numbers of the record and the bytes of the stores are those of the message with these parts.
fn held(
    m: CpimMessage,
    head: &[u8],
    store: &[u8],
    kind: &[u8],
    entries: &[u8],
    body: &[u8],
) -> bool {
    m.typelen == kind.len()
        && m.headerlen <= entries.len()
        && m.contentlen == entries.len() - m.headerlen
        && m.bodylen == body.len()
        && head.starts_with(kind)
        && has_at(head, 256, entries)
        && store.starts_with(body)
}

// `to_string` writes this text, and no byte behind it.
fn writes(m: CpimMessage, head: &[u8], body: &[u8], text: &[u8]) -> bool {
    let mut out = [255u8; 16384];
    to_string(m, head, body, &mut out).is_ok()
        && out.starts_with(text)
        && has_at(&out, text.len(), b"\xFF")
}

fn begin(
    kind: u8,
    first: &[u8],
    second: &[u8],
    script: &[u8],
    head: &mut [u8],
    body: &mut [u8],
) -> Result<CpimMessage, Refusal> {
    match kind {
        4 => new_and_run(first, second, script, head, body),
        3 => read_and_run(first, script, head, body),
        _ => parse_cpim(first, head, body),
    }
}

// What differs in the message held, or in its text.
fn message_differs(
    kind: u8,
    m: CpimMessage,
    head: &[u8],
    body: &[u8],
    item: &[u8],
) -> Option<Difference> {
    if !held(m, head, body, nth(item, 4), nth(item, 5), nth(item, 6)) {
        return Some(Difference::Message);
    }
    if kind != 1 && !writes(m, head, body, nth(item, 7)) {
        return Some(Difference::Text);
    }
    None
}

// What differs in a record, if anything.
fn differs(kind: u8, item: &[u8]) -> Option<Difference> {
    let mut head = [7u8; 16384];
    let mut body = [7u8; 4096];
    let begun = begin(
        kind,
        nth(item, 0),
        nth(item, 1),
        nth(item, 2),
        &mut head,
        &mut body,
    );
    let told = match begun {
        Ok(_) => Numbers {
            number: 0,
            carried: 0,
        },
        Err(refusal) => Numbers::from(refusal),
    };
    let numbers = nth(item, 3);
    if told.number != number(numbers, 0) {
        return Some(Difference::Number);
    }
    if told.carried != number(numbers, 4) {
        return Some(Difference::Carried);
    }
    match begun {
        Ok(m) => message_differs(kind, m, &head, &body, item),
        Err(_) if untouched(kind, &head, &body) => None,
        Err(_) => Some(Difference::Left),
    }
}

// The next record of the list; how long it is, 0 at the end.
fn next(clock: &impl Clock, list: &mut impl Read, item: &mut [u8]) -> usize {
    let mut size = [0u8; 4];
    if read_whole(clock, list, &mut size).count < 4 {
        return 0;
    }
    let n = number_at(&size, 0);
    if item.len() < n {
        return 0;
    }
    read_whole(clock, list, &mut item[..n]).count
}

// A record asked, and whether it agreed.
fn count(tallies: &mut [Tally; 5], kind: u8, agrees: bool) {
    if let Some(tally) = tallies.get_mut(kind as usize) {
        tally.asked = tally.asked.wrapping_add(1);
        if agrees {
            tally.agreed = tally.agreed.wrapping_add(1);
        }
    }
}

// One record; false at the end of the list. The first difference is told.
fn turn(
    rt: &(impl Print + Clock),
    list: &mut impl Read,
    place: u64,
    tallies: &mut [Tally; 5],
    told: &mut bool,
) -> io::Result<bool> {
    let mut item = [0u8; 16384];
    let n = next(rt, list, &mut item);
    if n == 0 {
        return Ok(false);
    }
    let kind = item[0];
    let difference = differs(kind, first(&item, n));
    count(tallies, kind, difference.is_none());
    if let Some(part) = difference {
        if !*told {
            *told = true;
            println!(rt; "differs first: answer {place} of the list, of kind {kind}, in {part}")?;
        }
    }
    Ok(true)
}

fn print_kind(rt: &impl Print, name: &str, tally: Tally) -> io::Result<()> {
    println!(rt; "{name}: {} of {} agree", tally.agreed, tally.asked)
}

// Every record; a list has an end, and no more than a million.
fn replay_all(
    rt: &(impl Print + Clock),
    list: &mut impl Read,
    tallies: &mut [Tally; 5],
) -> io::Result<()> {
    let mut told = false;
    for place in 1..1000000 {
        if !turn(rt, list, place, tallies, &mut told)? {
            return Ok(());
        }
    }
    Ok(())
}

fn main(rt: HostRuntime) -> io::Result<()> {
    let mut tallies = [Tally::default(); 5];
    replay_all(&rt, &mut rt.stdin(), &mut tallies)?;
    print_kind(&rt, "texts read", tallies[1])?;
    print_kind(&rt, "texts read and written", tallies[2])?;
    print_kind(&rt, "lists of calls begun by a text", tallies[3])?;
    print_kind(&rt, "lists of calls begun by new", tallies[4])
}
