// The replacement of each maximal ill-formed subpart by U+FFFD (Unicode chapter 3): length first, then the bytes. What is UTF-8
// between two such subparts is copied at once.
ghost use Rattle.std.specs.Prelude.{◌≡◌, ◌+◌, ◌≤◌, ◌^◌, length};
ghost use Rattle.format.specs.Bytes.{pasted};
ghost use Rattle.format.specs.Characters.{replacement, replaced};

// The length of a text with its ill-formed subparts replaced: at most three times its own.
pub fn replaced_len(s: &[u8]) -> usize
    requires { length s.now ≤ 2 ^ 60 }
    ensures { result ≡ length (replaced s.now) }
{
    let mut at = 0;
    let mut n = 0;
    loop {
        let end = crate::utf8_end(s, at);
        n += end - at;
        if end == s.len() {
            return n;
        }
        n += 3;
        at = end + characters::subpart_len(s, end);
    }
}

// U+FFFD over three bytes of out.
fn put_replacement(out: &mut [u8], at: usize)
    requires { at + 3 ≤ length out.old }
    ensures { out.new ≡ pasted at replacement out.old }
{
    octets::copy_at(out, at, b"\xEF\xBF\xBD");
}

// A text with its ill-formed subparts replaced, over the bytes of out from the place at on; the place behind it is returned.
pub fn put_replaced(out: &mut [u8], at: usize, s: &[u8]) -> usize
    requires { at + length (replaced s.now) ≤ length out.old }
    ensures place { result ≡ at + length (replaced s.now) }
    ensures bytes { out.new ≡ pasted at (replaced s.now) out.old }
{
    let mut from = 0;
    let mut to = at;
    loop {
        let end = crate::utf8_end(s, from);
        octets::copy_at(out, to, &s[from..end]);
        to += end - from;
        if end == s.len() {
            return to;
        }
        put_replacement(out, to);
        to += 3;
        from = end + characters::subpart_len(s, end);
    }
}
