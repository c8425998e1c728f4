// How the next bytes of a text are escaped (document 01, "Escaping"). No character is decoded: a byte below 128 is a
// character of its own, the only others that are escaped are C2 80 to C2 9F, and every other byte is written as it is.

ghost use Rattle.std.specs.Prelude.{◌≡◌, ◌<◌, length, drop};
ghost use Rattle.escape.specs.Forms.{byte_form, form_of, takes_form, width_form};

// How the next bytes are written: a byte as it is; a backslash and a letter; `\u` and the digits of a control byte;
// and those of a two-byte control, whose second byte is its code point.
#[derive(Clone, Copy)]
pub enum Form {
    Raw(u8),
    Short(u8),
    Long(u8),
    Upper(u8),
}

// A byte below 32.
fn low_form(b: u8) -> Form
    requires { b < 32 }
    ensures { result ≡ byte_form b }
{
    match b {
        8 => Form::Short(98),
        9 => Form::Short(116),
        10 => Form::Short(110),
        13 => Form::Short(114),
        _ => Form::Long(b),
    }
}

// A byte by itself: the letters first, since most bytes are letters.
fn byte_form(b: u8) -> Form
    ensures { result ≡ byte_form b }
{
    if 92 < b {
        if b == 127 {
            return Form::Long(127);
        }
        return Form::Raw(b);
    }
    if b == 92 {
        return Form::Short(92);
    }
    if 34 < b {
        return Form::Raw(b);
    }
    if b == 34 {
        return Form::Short(34);
    }
    if 31 < b {
        return Form::Raw(b);
    }
    low_form(b)
}

// The bytes from i on.
pub fn form_at(v: &[u8], i: usize) -> Form
    requires { i < length v.now }
    ensures { result ≡ form_of (drop i v.now) }
{
    let b = v[i];
    if b != 194 {
        return byte_form(b);
    }
    let next = i + 1;
    if v.len() <= next {
        return byte_form(b);
    }
    let c = v[next];
    if c < 128 {
        return byte_form(b);
    }
    if 159 < c {
        return byte_form(b);
    }
    Form::Upper(c)
}

// How many bytes it is written for.
pub fn takes(f: Form) -> usize
    ensures { result ≡ takes_form f }
{
    match f {
        Form::Raw(_) => 1,
        Form::Short(_) => 1,
        Form::Long(_) => 1,
        Form::Upper(_) => 2,
    }
}

// How many bytes are written.
pub fn width(f: Form) -> usize
    ensures { result ≡ width_form f }
{
    match f {
        Form::Raw(_) => 1,
        Form::Short(_) => 2,
        Form::Long(_) => 6,
        Form::Upper(_) => 6,
    }
}
