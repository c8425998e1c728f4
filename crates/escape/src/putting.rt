// The bytes of a form, written (document 01, "Escaping").

ghost use Rattle.std.specs.Prelude.{◌≡◌, ◌+◌, ◌≤◌, ◌<◌, length};
ghost use Rattle.format.specs.Bytes.{pasted};
ghost use Rattle.format.specs.Escaping.{digit, unicode_escape};
ghost use Rattle.escape.specs.Forms.{width_form, written_form};

use crate::forms::Form;

// A lower-case hexadecimal digit.
fn digit(n: u32) -> u8
    requires { n < 16 }
    ensures { result ≡ digit n }
{
    let d = n as u8;
    if d < 10 {
        return 48 + d;
    }
    87 + d
}

// `\u` and four digits, of a code point below 65536.
pub fn put_unicode(out: &mut [u8], at: usize, n: u32)
    requires { at + 6 ≤ length out.old }
    ensures { out.new ≡ pasted at (unicode_escape n) out.old }
{
    let first = digit(n / 4096 % 16);
    let second = digit(n / 256 % 16);
    let third = digit(n / 16 % 16);
    let fourth = digit(n % 16);
    out[at] = 92;
    out[at + 1] = 117;
    out[at + 2] = first;
    out[at + 3] = second;
    out[at + 4] = third;
    out[at + 5] = fourth;
}

// The form's bytes.
pub fn put_form(out: &mut [u8], at: usize, f: Form)
    requires { at + width_form f ≤ length out.old }
    ensures { out.new ≡ pasted at (written_form f) out.old }
{
    match f {
        Form::Raw(b) => {
            out[at] = b;
        }
        Form::Short(c) => {
            out[at] = 92;
            out[at + 1] = c;
        }
        Form::Long(n) => {
            put_unicode(out, at, n as u32);
        }
        Form::Upper(n) => {
            put_unicode(out, at, n as u32);
        }
    }
}
