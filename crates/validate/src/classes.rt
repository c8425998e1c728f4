// The classes of bytes that the validators search a text for (document 01, "Validators").

ghost use Rattle.std.specs.Prelude.{◌≡◌, ℕ, Bool};
ghost use Rattle.format.specs.Bytes.{any};
ghost use Rattle.format.specs.Characters.{is_ascii_control};
ghost use Rattle.format.specs.Validators.{reserved_in_name, reserved_in_param_name, reserved_in_param_value};
ghost use Rattle.validate.specs.Classes.{Answers};

// U+0000 to U+001F and U+007F.
#[tactic(auto, unfolding(format::specs::Characters::is_ascii_control))]
pub fn is_ascii_control(b: u8) -> bool
    ensures { result ≡ is_ascii_control b }
{
    (b < 32) | (b == 127)
}

// One of `: ; = \ "`.
#[tactic(auto, unfolding(format::specs::Validators::reserved_in_name, format::specs::Bytes::any))]
pub fn reserved_in_name(b: u8) -> bool
    ensures { result ≡ reserved_in_name b }
{
    (b == b':') | ((b == b';') | ((b == b'=') | ((b == b'\\') | (b == b'"'))))
}

// ASCII control or one of `; = \ "`.
#[tactic(auto, unfolding(format::specs::Validators::reserved_in_param_name, format::specs::Bytes::any))]
pub fn reserved_in_param_name(b: u8) -> bool
    ensures { result ≡ reserved_in_param_name b }
{
    is_ascii_control(b) | ((b == b';') | ((b == b'=') | ((b == b'\\') | (b == b'"'))))
}

// ASCII control or one of `; \ "`.
#[tactic(auto, unfolding(format::specs::Validators::reserved_in_param_value, format::specs::Bytes::any))]
pub fn reserved_in_param_value(b: u8) -> bool
    ensures { result ≡ reserved_in_param_value b }
{
    is_ascii_control(b) | ((b == b';') | ((b == b'\\') | (b == b'"')))
}

// Whether a byte of s is in the class that is told: a byte at a time, and no further than the first.
fn any_short<F: Fn(u8) -> bool>(s: &[u8], is_in: F) -> bool
    requires { F.IsAlwaysCallable is_in }
    ensures { (class : ℕ → Bool) → Answers (F.post is_in) class → result ≡ any class s.now }
{
    s.iter().any(|b| is_in(*b))
}

// The same. From 8 bytes on it reads to the end, so that the loop has one exit and many bytes are tested at a time: a text that is
// accepted is read whole anyway.
pub fn any_in<F: Fn(u8) -> bool>(s: &[u8], is_in: F) -> bool
    requires { F.IsAlwaysCallable is_in }
    ensures { (class : ℕ → Bool) → Answers (F.post is_in) class → result ≡ any class s.now }
{
    if s.len() < 8 {
        return any_short(s, is_in);
    }
    s.iter().fold(false, |found, b| found | is_in(*b))
}
