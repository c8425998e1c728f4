// The leaves as C functions, for the comparison with Rust and for the benchmarks. Each has the contract of what it wraps.
#![tactic(auto)]

ghost use Rattle.std.specs.Prelude.{◌≡◌, map, true, ◌+◌, ◌*◌, ◌^◌, ◌<◌, ◌≤◌, length, take, drop, replicate, is_some, unwrap_or};
ghost use Rattle.format.specs.Bytes.{lf_lf_text, pasted, same, before, occurs, pieces, split, up_to, lower, same_letters};
ghost use Rattle.format.specs.Characters.{is_utf8, is_white, is_control, replaced, trim};
ghost use Rattle.format.specs.Escaping.{escape, value_text, unescape};
ghost use Rattle.format.specs.Limits.{max_text};
ghost use Rattle.unescape.specs.Reads.{measured, value_of};
ghost use Rattle.sections.specs.Body.{joined, body_parts, filled};
ghost use Rattle.sections.specs.Place.{place};

use format::Manner;

#[unsafe(no_mangle)]
pub extern "C" fn leaves_is_utf8(s: &[u8]) -> bool
    ensures { result ≡ is_utf8 s.now }
{
    utf8::is_utf8(s)
}

#[unsafe(no_mangle)]
pub extern "C" fn leaves_is_white(s: &[u8]) -> bool
    ensures { result ≡ is_white s.now }
{
    code_points::is_white(s)
}

#[unsafe(no_mangle)]
pub extern "C" fn leaves_is_control(s: &[u8]) -> bool
    ensures { result ≡ is_control s.now }
{
    code_points::is_control(s)
}

// The trimmed text at the start of out; its length is the answer.
#[unsafe(no_mangle)]
pub extern "C" fn leaves_trim(out: &mut [u8], s: &[u8]) -> usize
    requires { length s.now ≤ length out.old }
    ensures len { result ≡ length (trim s.now) }
    ensures bytes { out.new ≡ pasted 0 (trim s.now) out.old }
{
    let t = code_points::trimming::trim(s);
    octets::copy_at(out, 0, t);
    t.len()
}

#[unsafe(no_mangle)]
pub extern "C" fn leaves_replaced_len(s: &[u8]) -> usize
    requires { length s.now ≤ 2 ^ 60 }
    ensures { result ≡ length (replaced s.now) }
{
    utf8::replace::replaced_len(s)
}

#[unsafe(no_mangle)]
pub extern "C" fn leaves_put_replaced(out: &mut [u8], s: &[u8]) -> usize
    requires { 0 + length (replaced s.now) ≤ length out.old }
    ensures len { result ≡ 0 + length (replaced s.now) }
    ensures bytes { out.new ≡ pasted 0 (replaced s.now) out.old }
{
    utf8::replace::put_replaced(out, 0, s)
}

#[unsafe(no_mangle)]
pub extern "C" fn leaves_escaped_len(s: &[u8]) -> usize
    requires { 6 * length s.now < 2 ^ 64 }
    ensures { result ≡ length (escape s.now) }
{
    escape::escaped_len(s)
}

#[unsafe(no_mangle)]
pub extern "C" fn leaves_escape(out: &mut [u8], s: &[u8]) -> usize
    requires { 0 + length (escape s.now) ≤ length out.old }
    ensures len { result ≡ 0 + length (escape s.now) }
    ensures bytes { out.new ≡ pasted 0 (escape s.now) out.old }
{
    escape::escape_header_value(out, 0, s)
}

#[unsafe(no_mangle)]
pub extern "C" fn leaves_value_text_len(s: &[u8]) -> usize
    requires { 6 * length s.now < 2 ^ 64 }
    ensures { result ≡ length (value_text s.now) }
{
    escape::values::value_text_len(s)
}

#[unsafe(no_mangle)]
pub extern "C" fn leaves_put_value_text(out: &mut [u8], s: &[u8]) -> usize
    requires { 0 + length (value_text s.now) ≤ length out.old }
    ensures len { result ≡ 0 + length (value_text s.now) }
    ensures bytes { out.new ≡ pasted 0 (value_text s.now) out.old }
{
    escape::values::put_value_text(out, 0, s)
}

// Whether every escape can be read.
#[unsafe(no_mangle)]
pub extern "C" fn leaves_reads(s: &[u8]) -> bool
    ensures { result ≡ is_some (measured (unescape s.now)) }
{
    unescape::unescaped_len(Manner::Source, s).is_some()
}

// The length of what the value reads as; 0 where it does not read.
#[unsafe(no_mangle)]
pub extern "C" fn leaves_unescaped_len(s: &[u8]) -> usize
    ensures { result ≡ unwrap_or (measured (unescape s.now)) 0 }
{
    unescape::unescaped_len(Manner::Source, s).unwrap_or(0)
}

#[unsafe(no_mangle)]
pub extern "C" fn leaves_unescape(out: &mut [u8], s: &[u8]) -> usize
    requires reads { is_some (measured (unescape s.now)) ≡ true }
    requires fits { 0 + length (value_of (unescape s.now)) ≤ length out.old }
    ensures len { result ≡ 0 + length (value_of (unescape s.now)) }
    ensures bytes { out.new ≡ pasted 0 (value_of (unescape s.now)) out.old }
{
    unescape::unescape_header_value(Manner::Source, out, 0, s)
}

#[unsafe(no_mangle)]
pub extern "C" fn leaves_find(text: &[u8], pattern: &[u8]) -> usize
    requires { 0 < length pattern.now }
    ensures { result ≡ place pattern.now text.now }
{
    sections::search::find(text, pattern)
}

#[unsafe(no_mangle)]
pub extern "C" fn leaves_find_plain(text: &[u8], pattern: &[u8]) -> usize
    requires { 0 < length pattern.now }
    ensures { result ≡ place pattern.now text.now }
{
    sections::search::find_plain(text, pattern)
}

#[unsafe(no_mangle)]
pub extern "C" fn leaves_joined_len(rest: &[u8]) -> usize
    requires { length rest.now ≤ max_text }
    ensures { result ≡ length (joined rest.now) }
{
    sections::bodies::joined_len(rest)
}

#[unsafe(no_mangle)]
pub extern "C" fn leaves_join_body(out: &mut [u8], rest: &[u8]) -> usize
    requires { length rest.now ≤ max_text }
    ensures length { result ≡ length (joined rest.now) }
    ensures bytes { out.new ≡ filled 0 (body_parts (pieces (split lf_lf_text rest.now))) out.old }
{
    sections::bodies::join_body(out, rest)
}

#[unsafe(no_mangle)]
pub extern "C" fn leaves_copy_at(dst: &mut [u8], at: usize, src: &[u8])
    requires { at + length src.now ≤ length dst.old }
    ensures { dst.new ≡ pasted at src.now dst.old }
{
    octets::copy_at(dst, at, src)
}

#[unsafe(no_mangle)]
pub extern "C" fn leaves_shift(s: &mut [u8], from: usize, to: usize, n: usize)
    requires { (from + n ≤ length s.old) × (to + n ≤ length s.old) }
    ensures { s.new ≡ pasted to (take n (drop from s.old)) s.old }
{
    octets::shifting::shift(s, from, to, n)
}

#[unsafe(no_mangle)]
pub extern "C" fn leaves_zero_fill(s: &mut [u8])
    ensures { s.new ≡ replicate (length s.old) 0 }
{
    octets::zero_fill(s)
}

#[unsafe(no_mangle)]
pub extern "C" fn leaves_before(a: &[u8], b: &[u8]) -> bool
    ensures { result ≡ before a.now b.now }
{
    octets::compare::before(a, b)
}

#[unsafe(no_mangle)]
pub extern "C" fn leaves_same(a: &[u8], b: &[u8]) -> bool
    ensures { result ≡ same a.now b.now }
{
    octets::compare::same(a, b)
}

#[unsafe(no_mangle)]
pub extern "C" fn leaves_same_letters(a: &[u8], b: &[u8]) -> bool
    ensures { result ≡ same_letters a.now b.now }
{
    octets::compare::same_letters(a, b)
}

#[unsafe(no_mangle)]
pub extern "C" fn leaves_says(text: &[u8], pattern: &[u8]) -> bool
    ensures { result ≡ occurs pattern.now (map lower text.now) }
{
    octets::compare::says(text, pattern)
}

#[unsafe(no_mangle)]
pub extern "C" fn leaves_find_byte(s: &[u8], c: u8) -> usize
    ensures { result ≡ length (up_to c s.now) }
{
    octets::finding::find_byte(s, c)
}
