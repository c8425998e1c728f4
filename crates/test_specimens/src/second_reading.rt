// Header lines by both readings (document 02, T-01): what the first and the second answer to each, and behind an accepted second reading the
// value and the first parameter of the Subject. Then messages whose text is read by the second reading.

use crate::{add, first, numbers};
use format::{CpimMessage, Numbers, Refusal};
use lookup::{get_header, get_param};
use read::{parse_cpim, parse_cpim_rfc};
use roundtrip::comes_back_rfc;
use std::io;
use write::to_string;

fn print_pair<A: Copy>(rt: &impl Print, answer: Result<A, Refusal>) -> io::Result<()> {
    let Numbers { number, carried } = numbers(answer);
    print!(rt; "{number} {carried}")
}

// The value of the Subject in brackets, and its first parameter, where there is one.
fn print_subject(rt: &impl Print, m: CpimMessage, head: &[u8]) -> io::Result<()> {
    let Some(value) = get_header(m, head, b"Subject") else {
        return rt.write_all(b" no Subject");
    };
    rt.write_all(b" [")?;
    rt.write_all(value)?;
    rt.write_all(b"]")?;
    if let Some(param) = get_param(m, head, b"Subject", 0, 0) {
        rt.write_all(b" ")?;
        rt.write_all(param.name)?;
        rt.write_all(b"=[")?;
        rt.write_all(param.value)?;
        rt.write_all(b"]")?;
    }
    Ok(())
}

// A header line by both readings.
fn line(rt: &impl Print, header: &[u8]) -> io::Result<()> {
    let mut text = [0u8; 1024];
    let mut at = add(&mut text, 0, b"Content-type: Message/CPIM\r\n\r\n");
    at = add(&mut text, at, header);
    at = add(&mut text, at, b"\r\n\r\nContent-type: text/plain\r\n\r\nHi");
    let mut head = [0u8; 2048];
    let mut body = [0u8; 2];
    rt.write_all(header)?;
    rt.write_all(b": ")?;
    print_pair(rt, parse_cpim(first(&text, at), &mut head, &mut body))?;
    rt.write_all(b", ")?;
    let second = parse_cpim_rfc(first(&text, at), &mut head, &mut body);
    print_pair(rt, second)?;
    if let Ok(m) = second {
        print_subject(rt, m, &head)?;
    }
    rt.write_all(b"\n")
}

// 28: what stands behind the colon.
pub fn spaces_misplaced(rt: &impl Print) -> io::Result<()> {
    line(rt, b"Subject: Hi")?;
    line(rt, b"Subject: ")?;
    line(rt, b"Subject:  Hi ")?;
    line(rt, b" Subject : Hi")?;
    line(rt, b"Subject:Hi")?;
    line(rt, b"Subject:")?;
    line(rt, b"Subject:\tHi you")?;
    line(rt, b"Subject:\xc2\xa0Hi you")?;
    line(rt, b"Subject:;lang=en")?;
    line(rt, b"=:x")?;
    line(rt, b"Subject;lang=en: Hi")
}

// 27, and what is read of parameters.
pub fn params_read(rt: &impl Print) -> io::Result<()> {
    line(rt, b"Subject:;lang=en Hi")?;
    line(rt, b"Subject:;a= Hi")?;
    line(rt, b"Subject:;a==b Hi")?;
    line(rt, b"Subject:;a=b:c Hi")?;
    line(rt, b"Subject:;a=1;a=2 Hi")?;
    line(rt, b"Subject:;b=1;a=2 Hi")?;
    line(rt, b"Subject:;a=b c Hi")?;
    line(rt, b"Subject: ;lang=en Hi")?;
    line(rt, b"Subject:; Hi")?;
    line(rt, b"Subject:;a Hi")?;
    line(rt, b"Subject:;a=b; Hi")?;
    line(rt, b"Subject:;a b=c Hi")
}

// The checks behind 27, and 21.
pub fn params_checked(rt: &impl Print) -> io::Result<()> {
    line(rt, b"Subject:;=b Hi")?;
    line(rt, b"Subject:;a;=b Hi")?;
    line(rt, b"Subject:;=b;a Hi")?;
    line(rt, b"Subject:;a=\"x\" Hi")?;
    line(rt, b"Subject:;a=;b=;c=;d=;e=;f=;g=;h=;i=;j= Hi")?;
    line(rt, b"Subject:;a=;b=;c=;d=;e=;f=;g=;h=;i=;j=;k= Hi")?;
    line(rt, b"Subject:;a=;b=;c=;d=;e=;f=;g=;h=;i=;j=;a= Hi")
}

pub fn escapes_read(rt: &impl Print) -> io::Result<()> {
    line(rt, b"Subject: \\'x")?;
    line(rt, b"Subject: \\u+041")?;
    line(rt, b"Subject: \\ud800")
}

// A message's text by the second reading.
fn back(rt: &impl Print, m: CpimMessage, head: &[u8], body: &[u8]) -> io::Result<()> {
    if comes_back_rfc(m, head, body) {
        rt.write_all(b" comes back:")?;
    } else {
        rt.write_all(b" does not come back:")?;
    }
    let mut out = [0u8; 1024];
    let n = to_string(m, head, body, &mut out).unwrap_or(0);
    let mut again = [0u8; 1024];
    let mut store = [0u8; 2];
    let answer = parse_cpim_rfc(first(&out, n), &mut again, &mut store);
    rt.write_all(b" ")?;
    print_pair(rt, answer)?;
    if let Ok(m) = answer {
        print_subject(rt, m, &again)?;
    }
    rt.write_all(b"\n")
}

// The umbrella with a parameter, in a message.
fn with_umbrella(
    head: &mut [u8],
    body: &mut [u8],
    param: &[u8],
    value: &[u8],
) -> Result<CpimMessage, Refusal> {
    let m = message::new(b"text/plain", b"Hi", head, body)?;
    let mut store = [0u8; 256];
    let mut h = header::new(b"Umbrella", &mut store)?;
    h = header::with_param(h, &mut store, param, value)?;
    message_add_obj::add_header_obj(m, head, b"Subject", h, &store)
}

fn umbrella(rt: &impl Print, param: &[u8], value: &[u8]) -> io::Result<()> {
    let mut head = [0u8; 1024];
    let mut body = [0u8; 2];
    let held = with_umbrella(&mut head, &mut body, param, value);
    match held {
        Ok(m) => back(rt, m, &head, &body),
        Err(_) => print_pair(rt, held),
    }
}

// Its parameter, and whether it comes back.
fn umbrella_back(rt: &impl Print, param: &[u8], value: &[u8]) -> io::Result<()> {
    rt.write_all(param)?;
    rt.write_all(b"=")?;
    rt.write_all(value)?;
    umbrella(rt, param, value)
}

// A depot code comes back, and with a space in it it does not.
pub fn messages_back(rt: &impl Print) -> io::Result<()> {
    umbrella_back(rt, b"depot", b"north")?;
    umbrella_back(rt, b"depot", b"north 4")?;
    umbrella_back(rt, b"depot code", b"north")
}
