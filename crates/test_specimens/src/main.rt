// Document 01's examples and specimens and the ends of header values (document 02, T-03), through the compiled functions: each text is
// read, and what was read is written again. A line for each: its name, the refusal's number and what it carries; behind an accepted one
// the text that is written. Then header lines by both readings (T-01, `second_reading`). The file `stdout` is what the documents say.

#![tactic(auto)]

mod second_reading;

use crate::second_reading::{
    escapes_read, messages_back, params_checked, params_read, spaces_misplaced,
};
use format::{CpimMessage, Numbers, Refusal};
use octets::copy_at;
use read::parse_cpim;
use read_split::{body_part, read_body};
use roundtrip::comes_back;
use std::io;
use write::to_string;

// The bytes of s at a place of a text, where there is room for them; the place behind them.
pub fn add(text: &mut [u8], at: usize, s: &[u8]) -> usize {
    if text.len() < at || text.len() - at < s.len() {
        return at;
    }
    copy_at(text, at, s);
    at + s.len()
}

// The bytes of s n times.
fn add_times(text: &mut [u8], at: usize, s: &[u8], n: usize) -> usize {
    let mut to = at;
    for _ in 0..n {
        to = add(text, to, s);
    }
    to
}

// The first n bytes, all of them where there are fewer.
pub fn first<'a>(s: &'a [u8], n: usize) -> &'a [u8] {
    &s[..n.min(s.len())]
}

// The two numbers of an answer: 0 and 0 where the call was accepted.
pub fn numbers<A: Copy>(answer: Result<A, Refusal>) -> Numbers {
    match answer {
        Ok(_) => Numbers {
            number: 0,
            carried: 0,
        },
        Err(refusal) => Numbers::from(refusal),
    }
}

fn print_answer<A: Copy>(
    rt: &impl Print,
    name: &[u8],
    answer: Result<A, Refusal>,
) -> io::Result<()> {
    let Numbers { number, carried } = numbers(answer);
    rt.write_all(name)?;
    println!(rt; " {number} {carried}")
}

// The text of what is held.
fn print_text(rt: &impl Print, m: CpimMessage, head: &[u8], body: &[u8]) -> io::Result<()> {
    let mut out = [0u8; 8192];
    let written = to_string(m, head, body, &mut out);
    let Ok(n) = written else {
        return print_answer(rt, b"to_string", written);
    };
    rt.write_all(first(&out, n))?;
    rt.write_all(b"\n")
}

// A text read.
fn read(rt: &impl Print, name: &[u8], text: &[u8]) -> io::Result<()> {
    let mut head = [0u8; 16384];
    let mut body = [0u8; 64];
    let answer = parse_cpim(text, &mut head, &mut body);
    print_answer(rt, name, answer)?;
    match answer {
        Ok(m) => print_text(rt, m, &head, &body),
        Err(_) => Ok(()),
    }
}

// A text with these header lines and content lines, and the body `Hi`.
fn notice(rt: &impl Print, name: &[u8], headers: &[u8], contents: &[u8]) -> io::Result<()> {
    let mut text = [0u8; 8192];
    let mut at = add(&mut text, 0, b"Content-type: Message/CPIM\r\n\r\n");
    at = add(&mut text, at, headers);
    at = add(&mut text, at, b"\r\n\r\n");
    at = add(&mut text, at, contents);
    at = add(&mut text, at, b"\r\n\r\nHi");
    read(rt, name, first(&text, at))
}

// A header line, or a content line, of which s stands n times between two parts: its numbers alone.
fn limit(
    rt: &impl Print,
    name: &[u8],
    before: &[u8],
    s: &[u8],
    n: usize,
    behind: &[u8],
) -> io::Result<()> {
    let mut text = [0u8; 8192];
    let mut at = add(&mut text, 0, b"Content-type: Message/CPIM\r\n\r\n");
    at = add(&mut text, at, before);
    at = add_times(&mut text, at, s, n);
    at = add(&mut text, at, behind);
    let mut head = [0u8; 16384];
    let mut body = [0u8; 64];
    print_answer(rt, name, parse_cpim(first(&text, at), &mut head, &mut body))
}

// One below the limit, at it, and one above.
fn around(
    rt: &impl Print,
    name: &[u8],
    before: &[u8],
    s: &[u8],
    n: usize,
    behind: &[u8],
) -> io::Result<()> {
    if n == 0 || 2000 < n {
        return Ok(());
    }
    limit(rt, name, before, s, n - 1, behind)?;
    limit(rt, name, before, s, n, behind)?;
    limit(rt, name, before, s, n + 1, behind)
}

// Header lines, over a content section that is sound.
fn header_lines(rt: &impl Print, name: &[u8], headers: &[u8]) -> io::Result<()> {
    notice(rt, name, headers, b"Content-type: text/plain")
}

fn texts_refused(rt: &impl Print) -> io::Result<()> {
    read(rt, b"2", b"")?;
    read(
        rt,
        b"3",
        b"Hi\r\n\r\nTo: a\r\n\r\nContent-type: text/plain\r\n\r\nHi",
    )
}

// Header lines, and a content line.
fn lines_refused(rt: &impl Print) -> io::Result<()> {
    header_lines(rt, b"4", b"To")?;
    header_lines(rt, b"5", b"To: \\q")?;
    header_lines(rt, b"6", b": a")?;
    header_lines(rt, b"8", b"T\to: a")?;
    header_lines(rt, b"9", b"a=b: c")?;
    notice(rt, b"11", b"To: a", b"ID: a\tb")
}

fn params_refused(rt: &impl Print) -> io::Result<()> {
    header_lines(rt, b"12", b"To;=x: a")?;
    header_lines(rt, b"14", b"To;a\"b=c: a")?;
    header_lines(rt, b"16", b"To;a=b\"c: a")
}

// Content types, and a text that is not UTF-8.
fn types_refused(rt: &impl Print) -> io::Result<()> {
    notice(rt, b"17", b"To: a", b"Content-type:")?;
    notice(rt, b"19", b"To: a", b"Content-type: a\x07b")?;
    read(rt, b"24", b"\xFF")
}

// The limits of a header line: s stands in it n times.
fn around_in_line(
    rt: &impl Print,
    name: &[u8],
    before: &[u8],
    s: &[u8],
    n: usize,
    behind: &[u8],
) -> io::Result<()> {
    let mut rest = [0u8; 64];
    let mut at = add(&mut rest, 0, behind);
    at = add(&mut rest, at, b"\r\n\r\nContent-type: text/plain\r\n\r\nHi");
    around(rt, name, before, s, n, first(&rest, at))
}

fn lengths_of_headers(rt: &impl Print) -> io::Result<()> {
    around_in_line(rt, b"7", b"", b"a", 128, b": b")?;
    around_in_line(rt, b"10", b"To: ", b"a", 1024, b"")
}

fn lengths_of_params(rt: &impl Print) -> io::Result<()> {
    around_in_line(rt, b"13", b"To;", b"a", 64, b"=b: c")?;
    around_in_line(rt, b"15", b"To;a=", b"b", 256, b": c")
}

fn length_of_type(rt: &impl Print) -> io::Result<()> {
    around(
        rt,
        b"18",
        b"To: a\r\n\r\nContent-type: ",
        b"a",
        256,
        b"\r\n\r\nHi",
    )
}

// 20, 21 and 22: the last parameter and the last content header replace the ones before them, and count all the same.
fn counts(rt: &impl Print) -> io::Result<()> {
    around_in_line(rt, b"20", b"To: a", b"\r\nTo: a", 49, b"")?;
    around_in_line(
        rt,
        b"21",
        b"To;b=1;c=1;d=1;e=1;f=1;g=1;h=1;i=1;j=1",
        b";a=1",
        1,
        b": c",
    )?;
    around(
        rt,
        b"22",
        b"To: a\r\n\r\nb:1\r\nc:1\r\nd:1\r\ne:1\r\nf:1\r\ng:1\r\nh:1\r\ni:1\r\nj:1\r\nk:1\r\nl:1\r\nm:1\r\nn:1\r\no:1\r\np:1\r\nq:1\r\nr:1\r\ns:1\r\nt:1",
        b"\r\na:1",
        1,
        b"\r\n\r\nHi",
    )
}

// A head store of 255 bytes, and one that is a byte short.
fn stores(rt: &impl Print, text: &[u8]) -> io::Result<()> {
    let mut body = [0u8; 2];
    let mut short = [0u8; 255];
    print_answer(rt, b"25", parse_cpim(text, &mut short, &mut body))?;
    let mut less = [0u8; 274];
    print_answer(rt, b"a byte less", parse_cpim(text, &mut less, &mut body))
}

fn outputs(rt: &impl Print, text: &[u8]) -> io::Result<()> {
    let mut head = [0u8; 275];
    let mut body = [0u8; 2];
    let read = parse_cpim(text, &mut head, &mut body);
    print_answer(rt, b"room for all", read)?;
    let Ok(m) = read else {
        return Ok(());
    };
    print_answer(rt, b"26", to_string(m, &head, &body, &mut []))
}

fn no_body_store(rt: &impl Print, text: &[u8]) -> io::Result<()> {
    let mut head = [0u8; 275];
    print_answer(rt, b"no body store", parse_cpim(text, &mut head, &mut []))
}

// Whether a message comes back from its text.
fn print_whole(
    rt: &impl Print,
    name: &[u8],
    m: CpimMessage,
    head: &[u8],
    body: &[u8],
) -> io::Result<()> {
    rt.write_all(name)?;
    if comes_back(m, head, body) {
        return rt.write_all(b" comes back\n");
    }
    rt.write_all(b" does not come back\n")
}

// A message's text read.
fn back(rt: &impl Print, name: &[u8], m: CpimMessage, head: &[u8], body: &[u8]) -> io::Result<()> {
    print_whole(rt, name, m, head, body)?;
    let mut out = [0u8; 8192];
    let n = to_string(m, head, body, &mut out).unwrap_or(0);
    read(rt, name, first(&out, n))
}

// A small message, and the same with a header.
fn small(head: &mut [u8], body: &mut [u8]) -> Result<CpimMessage, Refusal> {
    message::new(b"text/plain", b"Hi", head, body)
}

fn small_with(
    head: &mut [u8],
    body: &mut [u8],
    name: &[u8],
    value: &[u8],
) -> Result<CpimMessage, Refusal> {
    let m = small(head, body)?;
    message::set_header(m, head, name, value)
}

fn small_with_lang(head: &mut [u8], body: &mut [u8], value: &[u8]) -> Result<CpimMessage, Refusal> {
    let m = small(head, body)?;
    message::builders::with_subject_lang(m, head, value, b"en")
}

// What was made is written and read back; a refusal, which none of these has, is told.
fn made_back(
    rt: &impl Print,
    name: &[u8],
    made: Result<CpimMessage, Refusal>,
    head: &[u8],
    body: &[u8],
) -> io::Result<()> {
    match made {
        Ok(m) => back(rt, name, m, head, body),
        Err(_) => print_answer(rt, name, made),
    }
}

fn headerless(rt: &impl Print) -> io::Result<()> {
    let mut head = [0u8; 1024];
    let mut body = [0u8; 2];
    let made = small(&mut head, &mut body);
    made_back(rt, b"P6", made, &head, &body)
}

fn with_lang(rt: &impl Print, name: &[u8], value: &[u8]) -> io::Result<()> {
    let mut head = [0u8; 1024];
    let mut body = [0u8; 2];
    let made = small_with_lang(&mut head, &mut body, value);
    made_back(rt, name, made, &head, &body)
}

fn with_value(rt: &impl Print, name: &[u8], value: &[u8]) -> io::Result<()> {
    let mut head = [0u8; 1024];
    let mut body = [0u8; 2];
    let made = small_with(&mut head, &mut body, b"To", value);
    made_back(rt, name, made, &head, &body)
}

// Twenty content headers, then one of them again.
fn content_again(rt: &impl Print) -> io::Result<()> {
    let mut head = [0u8; 1024];
    let mut body = [0u8; 2];
    let read = parse_cpim(
        b"message/cpim\n\nTo:a\n\na:1\nb:1\nc:1\nd:1\ne:1\nf:1\ng:1\nh:1\ni:1\nj:1\nk:1\nl:1\nm:1\nn:1\no:1\np:1\nq:1\nr:1\ns:1\nt:1\n\nHi",
        &mut head,
        &mut body,
    );
    match read {
        Ok(m) => print_answer(
            rt,
            b"P11",
            message::add_content_header(m, &mut head, b"a", b"2"),
        ),
        Err(_) => print_answer(rt, b"P11", read),
    }
}

// A parameter's value that no text can have.
fn semicolon(rt: &impl Print) -> io::Result<()> {
    let mut store = [0u8; 64];
    let made = header::new(b"Hi", &mut store);
    match made {
        Ok(h) => print_answer(
            rt,
            b"16 by a call",
            header::with_param(h, &mut store, b"a", b"a;b"),
        ),
        Err(_) => print_answer(rt, b"16 by a call", made),
    }
}

// The body without a store, in two calls.
fn body_of<'a>(rt: &impl Print, text: &'a [u8], buffer: &'a mut [u8]) -> io::Result<()> {
    let answer = read_body(text, buffer);
    print_answer(rt, b"body", answer)?;
    rt.write_all(body_part(text, buffer, answer.unwrap_or(0)))?;
    rt.write_all(b"\n")
}

fn bodies(rt: &impl Print) -> io::Result<()> {
    body_of(
        rt,
        b"message/cpim\r\n\r\nTo: a\r\n\r\nContent-type: text/plain\r\n\r\nHi",
        &mut [],
    )?;
    let mut six = [0u8; 6];
    let mut five = [0u8; 5];
    let lines = b"message/cpim\n\nTo: a\n\nContent-type: text/plain\n\na\n\nb";
    body_of(rt, lines, &mut six)?;
    body_of(rt, lines, &mut five)
}

fn escapes(rt: &impl Print) -> io::Result<()> {
    with_value(rt, b"P1 by a call", b"A\\B")?;
    header_lines(rt, b"P1", b"To: A\\\\B")?;
    header_lines(rt, b"P2", b"To: \\u0041")?;
    header_lines(rt, b"P3", b"To: \\u+041")?;
    header_lines(rt, b"P4", b"To: \\ud800")
}

fn messages(rt: &impl Print) -> io::Result<()> {
    headerless(rt)?;
    with_lang(rt, b"P7", b"Hi")?;
    with_value(rt, b"P8", b"\t")?;
    with_value(rt, b"P9", b" ")?;
    read(
        rt,
        b"P10",
        b"message/cpim\n\nTo: a\n\nContent-type: text/plain\n\na\n\nb",
    )?;
    content_again(rt)
}

// A header value of 1,024 spaces: an output that is a byte short, and one that the text fills.
fn spaces(rt: &impl Print) -> io::Result<()> {
    let mut head = [0u8; 2048];
    let mut body = [0u8; 2];
    let made = small_with(&mut head, &mut body, b"To", &[32u8; 1024]);
    let Ok(m) = made else {
        return print_answer(rt, b"spaces", made);
    };
    let mut short = [0u8; 1101];
    print_answer(
        rt,
        b"spaces, a byte short",
        to_string(m, &head, &body, &mut short),
    )?;
    let mut full = [0u8; 1102];
    print_answer(rt, b"spaces", to_string(m, &head, &body, &mut full))
}

// U+00A0 at the end, U+3000 in front, two spaces, a space behind an escape; and behind a parameter, which is read as part of the value.
fn ends(rt: &impl Print) -> io::Result<()> {
    with_value(rt, b"T-03 last", b"x\xc2\xa0")?;
    with_value(rt, b"T-03 first", b"\xe3\x80\x80x")?;
    with_value(rt, b"T-03 both", b"  ")?;
    with_value(rt, b"T-03 escape", b"\\ ")?;
    with_lang(rt, b"T-03 parameter", b"Hi\xc2\xa0")?;
    spaces(rt)
}

fn main(rt: HostRuntime) -> io::Result<()> {
    texts_refused(&rt)?;
    lines_refused(&rt)?;
    params_refused(&rt)?;
    types_refused(&rt)?;
    lengths_of_headers(&rt)?;
    lengths_of_params(&rt)?;
    length_of_type(&rt)?;
    counts(&rt)?;
    let text = b"Content-type: Message/CPIM\r\n\r\nTo: a\r\n\r\nContent-type: text/plain\r\n\r\nHi";
    stores(&rt, text)?;
    outputs(&rt, text)?;
    no_body_store(&rt, text)?;
    semicolon(&rt)?;
    bodies(&rt)?;
    escapes(&rt)?;
    messages(&rt)?;
    ends(&rt)?;
    spaces_misplaced(&rt)?;
    params_read(&rt)?;
    params_checked(&rt)?;
    escapes_read(&rt)?;
    messages_back(&rt)
}
