// Document 01, "Reading": the search for a pattern. "The search leaves all its loops at the first match": `find_plain`.
// `find` is the same by blocks, for long texts.

ghost use Rattle.std.specs.Prelude.{true, ◌≡◌, ◌<◌, ◌≤◌, ◌+◌, length};
ghost use Rattle.sections.specs.Block.{near};
ghost use Rattle.sections.specs.Finding.{Finds};
ghost use Rattle.sections.specs.Place.{place};

// The place of the first occurrence of a pattern that is not empty, or the text's length. Bytes are compared by hand: by `starts_with` at each
// place a text of 8 bytes takes a fifth longer.
pub fn find_plain(text: &[u8], pattern: &[u8]) -> usize
    requires { 0 < length pattern.now }
    ensures { result ≡ place pattern.now text.now }
{
    let mut place: usize = 0;
    let at = 'places: loop {
        if text.len() - place < pattern.len() {
            break 'places text.len();
        }
        let mut k: usize = 0;
        loop {
            if k == pattern.len() {
                break 'places place;
            }
            if text[place + k] != pattern[k] {
                break;
            }
            k += 1;
        }
        place += 1;
    };
    at
}

// Whether at some place `first` stands in `text` and `last` in `behind`. No early exit, and the least difference: 16 places are a few vector
// instructions, where a Boolean over `==` is compiled to a page of scalar ones (366 for 454 to the first CRLF of a text of 1 KiB). The number of
// places is known here, so that a loop of 16 is unrolled before it comes to stand in that of `find_by`, where it is cut into single bytes. And it
// is a `for`, since a `fold` over the two slices takes 61 instructions for 43 to look for LFLF at 64 places.
fn near_in<const PLACES: usize>(text: &[u8], behind: &[u8], first: u8, last: u8) -> bool
    requires { (length text.now ≡ PLACES) × (length behind.now ≡ PLACES) }
    ensures { result ≡ near first last text.now behind.now }
{
    let mut low: u8 = 255;
    for k in 0..PLACES {
        low = low.min((text[k] ^ first) | (behind[k] ^ last));
    }
    low == 0
}

// Whether the pattern's first two bytes and its last two stand together at none of a block's 16 places. Then the pattern does not
// stand in the block; where the answer is no it may, and does if it has no more than these bytes, but only the yes is proved. No
// early exit, and the least difference, as in `near_in`.
fn rules_out(block: &[u8], pattern: &[u8]) -> bool
    requires { (1 < length pattern.now) × (length block.now ≡ length pattern.now + 15) }
    ensures { result ≡ true → place pattern.now block.now ≡ length block.now }
{
    let far = pattern.len() - 1;
    let late = far - 1;
    let second = &block[1..];
    let third = &block[late..];
    let last = &block[far..];
    let mut low: u8 = 255;
    for k in 0..16 {
        let ahead = (block[k] ^ pattern[0]) | (second[k] ^ pattern[1]);
        let behind = (third[k] ^ pattern[late]) | (last[k] ^ pattern[far]);
        low = low.min(ahead | behind);
    }
    0 < low
}

// `find_plain`, for a block with 16 places: a pattern of more than two bytes is asked for those next to its first and its last as well, since
// in a text with CR ab LF in each 16 bytes every block has these two.
fn find_close(block: &[u8], pattern: &[u8]) -> usize
    requires { 0 < length pattern.now }
    ensures { result ≡ place pattern.now block.now }
{
    if 2 < pattern.len() && block.len() == pattern.len() + 15 && rules_out(block, pattern) {
        return block.len();
    }
    find_plain(block, pattern)
}

// `find_plain`, by blocks of so many places. One in which the pattern's first byte nowhere has its last byte at the pattern's distance behind
// it is passed over; `within` looks in the others, and `behind` in what is left. Both are handed the pattern and capture nothing: so
// the compiler sees in `find_plain` how long a pattern can be, and unrolls it. Reading the body of the smallest notice takes 869 instructions
// for 1,141.
fn find_by<const PLACES: usize, F: Fn(&[u8], &[u8]) -> usize, G: Fn(&[u8], &[u8]) -> usize>(
    text: &[u8],
    pattern: &[u8],
    within: F,
    behind: G,
) -> usize
    requires pattern { 0 < length pattern.now }
    requires places { (0 < PLACES) × (PLACES ≤ 64) }
    requires callable { ((x : _) → F.pre within x pattern) × ((x : _) → G.pre behind x pattern) }
    requires finds { Finds F.Fn within pattern × Finds G.Fn behind pattern }
    ensures { result ≡ place pattern.now text.now }
{
    let far = pattern.len() - 1;
    let span = far + PLACES;
    let mut at: usize = 0;
    while span <= text.len() - at {
        let block = &text[at..at + span];
        if near_in::<PLACES>(&block[..PLACES], &block[far..], pattern[0], pattern[far]) {
            let place = within(block, pattern);
            if place < PLACES {
                return at + place;
            }
        }
        at += PLACES;
    }
    at + behind(&text[at..], pattern)
}

// `find_plain`, by blocks of 16 places.
fn find_by_16(text: &[u8], pattern: &[u8]) -> usize
    requires { 0 < length pattern.now }
    ensures { result ≡ place pattern.now text.now }
{
    find_by::<16, _, _>(
        text,
        pattern,
        |block, pattern| find_close(block, pattern),
        |rest, pattern| find_plain(rest, pattern),
    )
}

// `find_plain`, by blocks of 64 places, and then of 16.
pub fn find(text: &[u8], pattern: &[u8]) -> usize
    requires { 0 < length pattern.now }
    ensures { result ≡ place pattern.now text.now }
{
    find_by::<64, _, _>(
        text,
        pattern,
        |block, pattern| find_by_16(block, pattern),
        |rest, pattern| find_by_16(rest, pattern),
    )
}
