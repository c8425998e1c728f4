// The first and the last character of a text, where a test passes it. The tests pass well-formed characters of at most three bytes, so
// three prefixes and three suffixes decide; an ASCII byte decides alone.
ghost use Rattle.std.specs.Prelude.{◌≡◌, ◌≤◌, ◌<◌, min, MatchOption, Bool};
ghost use Rattle.format.specs.Bytes.{Bytes};
ghost use Rattle.code_points.specs.Edges.{Tests, AFront, NoFront, ABack, NoBack};

// How many bytes the first character has, where it passes.
pub(crate) fn front<F: Fn(&[u8]) -> bool>(u: &[u8], passes: F) -> Option<usize>
    requires { F.IsAlwaysCallable passes }
    ensures { (p : Bytes → Bool) → Tests F.Fn passes p → MatchOption result (NoFront p u.now) (AFront p u.now) }
{
    let edge = u.first()?;
    if *edge < 0x80 {
        return passes(&u[..1]).then_some(1);
    }
    if u.len() < 2 {
        return None;
    }
    if passes(&u[..2]) {
        return Some(2);
    }
    if u.len() < 3 {
        return None;
    }
    passes(&u[..3]).then_some(3)
}

// How many bytes the last character has, where it passes.
pub(crate) fn back<F: Fn(&[u8]) -> bool>(u: &[u8], passes: F) -> Option<usize>
    requires { F.IsAlwaysCallable passes }
    ensures { (p : Bytes → Bool) → Tests F.Fn passes p → MatchOption result (NoBack p u.now) (ABack p u.now) }
{
    let edge = u.last()?;
    if *edge < 0x80 {
        return passes(&u[u.len() - 1..]).then_some(1);
    }
    if u.len() < 2 {
        return None;
    }
    if passes(&u[u.len() - 2..]) {
        return Some(2);
    }
    if u.len() < 3 {
        return None;
    }
    passes(&u[u.len() - 3..]).then_some(3)
}
