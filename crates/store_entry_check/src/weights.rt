// Short texts weighed: what weighs little enough passes the validators and is ASCII, at a table's entry a byte
// (specs/Weights.antt).

ghost use Rattle.std.specs.Prelude.{◌≡◌, ◌<◌, length};
ghost use Rattle.format.specs.Bytes.{total};
ghost use Rattle.store_entry_check.specs.Weights.{weight, weights, is_light};

// The weight of each byte, 16 to a line.
static WEIGHTS: [u8; 256] = *b"\
    \xff\xff\xff\xff\xff\xff\xff\xff\xff\xff\xff\xff\xff\xff\xff\xff\
    \xff\xff\xff\xff\xff\xff\xff\xff\xff\xff\xff\xff\xff\xff\xff\xff\
    \0\0\x20\0\0\0\0\0\0\0\0\0\0\0\0\0\
    \0\0\0\0\0\0\0\0\0\0\x01\x20\0\x01\0\0\
    \0\0\0\0\0\0\0\0\0\0\0\0\0\0\0\0\
    \0\0\0\0\0\0\0\0\0\0\0\0\x20\0\0\0\
    \0\0\0\0\0\0\0\0\0\0\0\0\0\0\0\0\
    \0\0\0\0\0\0\0\0\0\0\0\0\0\0\0\xff\
    \xff\xff\xff\xff\xff\xff\xff\xff\xff\xff\xff\xff\xff\xff\xff\xff\
    \xff\xff\xff\xff\xff\xff\xff\xff\xff\xff\xff\xff\xff\xff\xff\xff\
    \xff\xff\xff\xff\xff\xff\xff\xff\xff\xff\xff\xff\xff\xff\xff\xff\
    \xff\xff\xff\xff\xff\xff\xff\xff\xff\xff\xff\xff\xff\xff\xff\xff\
    \xff\xff\xff\xff\xff\xff\xff\xff\xff\xff\xff\xff\xff\xff\xff\xff\
    \xff\xff\xff\xff\xff\xff\xff\xff\xff\xff\xff\xff\xff\xff\xff\xff\
    \xff\xff\xff\xff\xff\xff\xff\xff\xff\xff\xff\xff\xff\xff\xff\xff\
    \xff\xff\xff\xff\xff\xff\xff\xff\xff\xff\xff\xff\xff\xff\xff\xff";

fn table() -> &'static [u8; 256]
    ensures { result.now ≡ weights }
{
    &WEIGHTS
}

// What s weighs.
fn weigh(s: &[u8]) -> usize
    requires { length s.now < 32 }
    ensures { result ≡ total weight s.now }
{
    let table = table();
    let mut sum = 0;
    for b in s {
        sum += usize::from(table[usize::from(*b)]);
    }
    sum
}

// Whether s is short and weighs less than the limit.
#[tactic(auto, unfolding(crate::specs::Weights::is_light))]
pub fn is_light(s: &[u8], limit: usize) -> bool
    ensures { result ≡ is_light limit s.now }
{
    s.len() < 32 && weigh(s) < limit
}
