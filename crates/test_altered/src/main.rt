// Calls on what is no longer as it was handed out: every byte of a small message's stores, and every number of its record,
// altered to several values each. A call is accepted, or refused by 25 carrying 0 with nothing changed; after an accepted one
// the lookups give what the call defines, and all else as before.

#![tactic(auto)]

use format::{CpimHeader, CpimMessage, Refusal};
use lookup::content_headers::content;
use lookup::counts::{count_contents, count_headers};
use lookup::get_header_value;
use std::io;

// Calls made; accepted; refused by 25 carrying 0; answered otherwise; and those after which something else is held, or
// something has changed.
#[derive(Clone, Copy, Default)]
struct Tally {
    made: u64,
    accepted: u64,
    nothing: u64,
    other: u64,
    wrong: u64,
}

fn more(n: u64) -> u64 {
    n.wrapping_add(1)
}

// One more call, by its answer and whether what it left is right.
fn counted<A: Copy>(t: Tally, answer: Result<A, Refusal>, right: bool) -> Tally {
    let mut n = t;
    n.made = more(t.made);
    if !right {
        n.wrong = more(t.wrong);
    }
    match answer {
        Ok(_) => n.accepted = more(t.accepted),
        Err(Refusal::NoRoom(0)) => n.nothing = more(t.nothing),
        Err(_) => n.other = more(t.other),
    }
    n
}

// Whether the n-th value of a name is this one, and the last.
fn is_last(m: CpimMessage, head: &[u8], name: &[u8], n: usize, value: &[u8]) -> bool {
    let last = get_header_value(m, head, name, n);
    let another = get_header_value(m, head, name, n.wrapping_add(1));
    last.is_some_and(|last| last == value) && another.is_none()
}

// How many values a name has, up to 60.
fn values_of(m: CpimMessage, head: &[u8], name: &[u8]) -> usize {
    for n in 0..60 {
        if get_header_value(m, head, name, n).is_none() {
            return n;
        }
    }
    60
}

// `add_header`: one more header, the last of its name.
fn try_add(t: Tally, m: CpimMessage, head: [u8; 512]) -> Tally {
    let mut work = head;
    let before = count_headers(m, &work);
    let of_name = values_of(m, &work, b"To");
    let answer = message::add_header(m, &mut work, b"To", b"x");
    let right = match answer {
        Ok(a) => {
            count_headers(a, &work) == before.wrapping_add(1)
                && is_last(a, &work, b"To", of_name, b"x")
        }
        Err(_) => work == head,
    };
    counted(t, answer, right)
}

// `set_header`: its name has this one value.
fn try_set(t: Tally, m: CpimMessage, head: [u8; 512]) -> Tally {
    let mut work = head;
    let answer = message::set_header(m, &mut work, b"From", b"x");
    let right = match answer {
        Ok(a) => is_last(a, &work, b"From", 0, b"x"),
        Err(_) => work == head,
    };
    counted(t, answer, right)
}

// `add_content_header` of the first name of all: the first one has this value, and there is one more.
fn try_content(t: Tally, m: CpimMessage, head: [u8; 512]) -> Tally {
    let mut work = head;
    let before = count_contents(m, &work);
    let answer = message::add_content_header(m, &mut work, b" ", b"x");
    let right = match answer {
        Ok(a) => {
            count_contents(a, &work) == before.wrapping_add(1)
                && content(a, &work, 0).is_some_and(|first| first.value == b"x".as_slice())
        }
        Err(_) => work == head,
    };
    counted(t, answer, right)
}

fn try_calls(t: Tally, m: CpimMessage, head: [u8; 512]) -> Tally {
    let one = try_add(t, m, head);
    let two = try_set(one, m, head);
    try_content(two, m, head)
}

// The values tried for a byte: the ends of every class of bytes, then its neighbours.
fn others(old: u8) -> [u8; 16] {
    [
        0,
        1,
        9,
        16,
        32,
        58,
        59,
        65,
        97,
        127,
        128,
        194,
        224,
        255,
        old.wrapping_add(1),
        old.wrapping_sub(1),
    ]
}

// Every such value at every place of a store.
fn try_places<F: Fn(Tally, usize, u8) -> Tally>(t: Tally, store: &[u8], tried: F) -> Tally
    requires { F.IsAlwaysCallable tried }
{
    let mut sum = t;
    for (at, old) in store.iter().enumerate() {
        for other in others(*old) {
            sum = tried(sum, at, other);
        }
    }
    sum
}

// The store with another byte at a place.
fn with_byte<const N: usize>(store: [u8; N], at: usize, byte: u8) -> [u8; N] {
    let mut work = store;
    if let Some(old) = work.get_mut(at) {
        *old = byte;
    }
    work
}

// The record with another number in the i-th place.
fn with_number(m: CpimMessage, i: usize, n: usize) -> CpimMessage {
    match i {
        0 => CpimMessage { typelen: n, ..m },
        1 => CpimMessage { headers: n, ..m },
        2 => CpimMessage { headerlen: n, ..m },
        3 => CpimMessage { contents: n, ..m },
        4 => CpimMessage { contentlen: n, ..m },
        5 => CpimMessage { bodylen: n, ..m },
        _ => m,
    }
}

// Every number up to 300, and the largest ones, in each place of the record.
fn try_numbers(t: Tally, m: CpimMessage, head: [u8; 512]) -> Tally {
    let mut sum = t;
    for i in 0..6 {
        for n in 0..302usize {
            sum = try_calls(sum, with_number(m, i, n.wrapping_sub(2)), head);
        }
    }
    sum
}

// `with_param` on a header alone, of the first name of all: the first parameter has this value.
fn try_param(t: Tally, h: CpimHeader, store: [u8; 128]) -> Tally {
    let mut work = store;
    let answer = header::with_param(h, &mut work, b" ", b"x");
    let right = match answer {
        Ok(a) => {
            lookup::alone::param(a, &work, 0).is_some_and(|first| first.value == b"x".as_slice())
        }
        Err(_) => work == store,
    };
    counted(t, answer, right)
}

fn print_tally(rt: &impl Print, t: Tally) -> io::Result<()> {
    println!(rt; "calls={}", t.made)?;
    println!(rt; "accepted={}", t.accepted)?;
    println!(rt; "nothing-held={}", t.nothing)?;
    println!(rt; "otherwise={}", t.other)?;
    println!(rt; "wrong={}", t.wrong)
}

// The small message.
fn small_message(head: &mut [u8; 512]) -> Result<CpimMessage, Refusal> {
    let mut body = [0u8; 4];
    let mut m = message::new(b"text/plain", b"Hi", head, &mut body)?;
    m = message::set_header(m, head, b"From", b"<im:a@b>")?;
    m = message::add_header(m, head, b"To", b"c")?;
    m = message::add_header(m, head, b"To", b"d")?;
    m = message::builders::with_subject_lang(m, head, b"Hut", b"de")?;
    message::add_content_header(m, head, b"ID", b"1")
}

fn message_tally() -> Tally {
    let mut head = [0u8; 512];
    let Ok(m) = small_message(&mut head) else {
        return Tally::default();
    };
    let places = try_places(Tally::default(), &head, |t, at, byte| {
        try_calls(t, m, with_byte(head, at, byte))
    });
    try_numbers(places, m, head)
}

// A header with two parameters.
fn small_header(store: &mut [u8; 128]) -> Result<CpimHeader, Refusal> {
    let mut h = header::new(b"Hut", store)?;
    h = header::with_param(h, store, b"lang", b"de")?;
    header::with_param(h, store, b"x", b"")
}

fn header_tally() -> Tally {
    let mut store = [0u8; 128];
    let Ok(h) = small_header(&mut store) else {
        return Tally::default();
    };
    try_places(Tally::default(), &store, |t, at, byte| {
        try_param(t, h, with_byte(store, at, byte))
    })
}

fn main(rt: HostRuntime) -> io::Result<()> {
    print_tally(&rt, message_tally())?;
    print_tally(&rt, header_tally())
}
