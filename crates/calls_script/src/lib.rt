// A script of changing calls as bytes (specs/Script.antt): where an argument stands, and where a call ends.

#![tactic(auto)]

ghost use Rattle.std.specs.Prelude.{◌≡◌, true, ◌+◌, ◌*◌, ◌≤◌, ◌<◌, length, drop, get_or};
ghost use Rattle.format.specs.Told.{given};
ghost use Rattle.calls_script.specs.Script.{number_in, whole, argument, argument_size, both_whole, both_size, header_whole, header_size, form_of, meant, complete, size_of, end_of};

// The calls of one text.
#[derive(Clone, Copy)]
pub enum TextCall {
    SetBody,
    WithFrom,
    WithTo,
    WithDatetime,
    WithSubject,
    WithCc,
    WithRequire,
}

// The calls of two texts.
#[derive(Clone, Copy)]
pub enum PairCall {
    SetHeader,
    AddHeader,
    AddContentHeader,
    WithSubjectLang,
    WithNs,
    WithContentHeader,
}

// A call without its arguments: what follows its number.
#[derive(Clone, Copy)]
pub enum Form {
    Text(TextCall),
    Pair(PairCall),
    AddHeaderObj,
}

// A number of four bytes, the low one first.
fn four_bytes(a: u8, b: u8, c: u8, d: u8) -> usize
    ensures { (result ≡ a + 256 * b + 65536 * c + 16777216 * d) × (result < 4294967296) }
{
    a as usize + 256 * (b as usize) + 65536 * (c as usize) + 16777216 * (d as usize)
}

// The number at a place.
pub fn number_at(s: &[u8], at: usize) -> usize
    requires { at + 4 ≤ length s.now }
    ensures { (result ≡ number_in (drop at s.now)) × (result < 4294967296) }
{
    four_bytes(s[at], s[at + 1], s[at + 2], s[at + 3])
}

// The place behind the argument at a place, where it stands whole.
pub fn behind(s: &[u8], at: usize) -> usize
    requires { whole (drop at s.now) ≡ true }
    ensures { result ≡ at + argument_size (drop at s.now) }
{
    at + 4 + number_at(s, at)
}

// The argument at a place, where it stands whole.
pub fn argument_at<'a>(s: &'a [u8], at: usize) -> &'a [u8]
    requires { whole (drop at s.now) ≡ true }
    ensures { result.now ≡ argument (drop at s.now) }
{
    let from = at + 4;
    let to = from + number_at(s, at);
    &s[from..to]
}

// The place behind the argument at a place; None where it is cut off.
pub fn argument_end(s: &[u8], at: usize) -> Option<usize>
    requires { at ≤ length s.now }
    ensures { given result ≡ end_of (whole (drop at s.now)) (at + argument_size (drop at s.now)) }
{
    if s.len() - at < 4 {
        return None;
    }
    let from = at + 4;
    let n = number_at(s, at);
    if s.len() - from < n {
        return None;
    }
    Some(from + n)
}

// The place behind two arguments.
fn two_end(s: &[u8], at: usize) -> Option<usize>
    requires { at ≤ length s.now }
    ensures { given result ≡ end_of (both_whole (drop at s.now)) (at + both_size (drop at s.now)) }
{
    let next = argument_end(s, at)?;
    argument_end(s, next)
}

// The place behind a name, the record of a header and its store.
fn header_end(s: &[u8], at: usize) -> Option<usize>
    requires { at ≤ length s.now }
    ensures { given result ≡ end_of (header_whole (drop at s.now)) (at + header_size (drop at s.now)) }
{
    let next = argument_end(s, at)?;
    if s.len() - next < 12 {
        return None;
    }
    argument_end(s, next + 12)
}

// The form of a call by its number; None for a number that is no call's.
pub fn form_of(number: u8) -> Option<Form>
    ensures { meant result ≡ form_of number }
{
    match number {
        0 => Some(Form::Text(TextCall::SetBody)),
        1 => Some(Form::Pair(PairCall::SetHeader)),
        2 => Some(Form::Pair(PairCall::AddHeader)),
        3 => Some(Form::AddHeaderObj),
        4 => Some(Form::Pair(PairCall::AddContentHeader)),
        5 => Some(Form::Text(TextCall::WithFrom)),
        6 => Some(Form::Text(TextCall::WithTo)),
        7 => Some(Form::Text(TextCall::WithDatetime)),
        8 => Some(Form::Text(TextCall::WithSubject)),
        9 => Some(Form::Pair(PairCall::WithSubjectLang)),
        10 => Some(Form::Text(TextCall::WithCc)),
        11 => Some(Form::Pair(PairCall::WithNs)),
        12 => Some(Form::Text(TextCall::WithRequire)),
        13 => Some(Form::Pair(PairCall::WithContentHeader)),
        _ => None,
    }
}

// The place behind the call at a place; None where no whole call stands there.
pub fn call_end(s: &[u8], at: usize) -> Option<usize>
    requires { at ≤ length s.now }
    ensures { given result ≡ end_of (complete (form_of (get_or s.now at 0)) (drop (at + 1) s.now)) (at + 1 + size_of (form_of (get_or s.now at 0)) (drop (at + 1) s.now)) }
{
    if at == s.len() {
        return None;
    }
    let from = at + 1;
    match form_of(s[at])? {
        Form::Text(_) => argument_end(s, from),
        Form::Pair(_) => two_end(s, from),
        Form::AddHeaderObj => header_end(s, from),
    }
}
