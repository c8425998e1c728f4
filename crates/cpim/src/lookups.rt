// The lookups as C functions: an export can hand back no reference, so each answers by place in the store that was lent
// (crates/lookup_places/specs/Spots.antt). Absent: found false, the numbers 0.

ghost use Rattle.std.specs.Prelude.{◌≡◌};
ghost use Rattle.std.proofs.Math.Option.{Option};
ghost use Rattle.format.specs.Message.{LoneHeader, Message};
ghost use Rattle.format.specs.Layout.{Held, HeldAlone};
ghost use Rattle.format.specs.Lending.{head_lent, both_lent};
ghost use Rattle.format.specs.LookingUp.{nth_header, get_header, get_header_value, get_param, get_type, get_body, get_content, alone_value, alone_param, count_headers, count_params, count_contents, body_as_str, address};
ghost use Rattle.lookup_places.specs.Rows.{Placed};
ghost use Rattle.read_split.specs.BodyPlaces.{PlaceIs};
ghost use Rattle.lookup_places.specs.Spots.{PartIs, PairIs};
ghost use Rattle.lookup_places.specs.Standing.{content_place, alone_param_place, address_place};
ghost use Rattle.lookup_places.specs.NamedPlaces.{header_place, value_place, param_place};

use crate::answers::numbers;
use format::{CpimHeader, CpimMessage, Numbers};
use lookup_places::spots::{Pair, Part};
use read_split::BodyPlace;

// The first value of a name.
#[unsafe(no_mangle)]
pub extern "C" fn cpim_get_header(m: CpimMessage, head: &[u8], name: &[u8]) -> Part
    ensures { (o : Option Message) → Held (head_lent m head.now) o → PartIs head.now (value_place (header_place o name.now 0) (nth_header o name.now 0)) (get_header o name.now) result }
{
    lookup_places::by_name::first_value_place(m, head, name)
}

// The n-th value of a name.
#[unsafe(no_mangle)]
pub extern "C" fn cpim_get_header_value(m: CpimMessage, head: &[u8], name: &[u8], n: usize) -> Part
    ensures { (o : Option Message) → Held (head_lent m head.now) o → PartIs head.now (value_place (header_place o name.now n) (nth_header o name.now n)) (get_header_value o name.now n) result }
{
    lookup_places::by_name::value_place(m, head, name, n)
}

// The n-th parameter of the k-th value of a name.
#[unsafe(no_mangle)]
pub extern "C" fn cpim_get_param(
    m: CpimMessage,
    head: &[u8],
    name: &[u8],
    k: usize,
    n: usize,
) -> Pair
    ensures { (o : Option Message) → Held (head_lent m head.now) o → PairIs head.now (param_place (header_place o name.now k) (nth_header o name.now k) n) (get_param o name.now k n) result }
{
    lookup_places::by_name::param_place(m, head, name, k, n)
}

#[unsafe(no_mangle)]
pub extern "C" fn cpim_content_type(m: CpimMessage, head: &[u8]) -> Part
    ensures { (o : Option Message) → Held (head_lent m head.now) o → PartIs head.now 0 (get_type o) result }
{
    lookup_places::standing::type_place(m, head)
}

#[unsafe(no_mangle)]
pub extern "C" fn cpim_body(m: CpimMessage, head: &[u8], body: &[u8]) -> Part
    ensures { (o : Option Message) → Held (both_lent m head.now body.now) o → PartIs body.now 0 (get_body o) result }
{
    lookup_places::standing::held_body_place(m, head, body)
}

#[unsafe(no_mangle)]
pub extern "C" fn cpim_body_as_str(m: CpimMessage, head: &[u8], body: &[u8]) -> bool
    ensures { (o : Option Message) → Held (both_lent m head.now body.now) o → result ≡ body_as_str o }
{
    lookup::accessors::body_as_str(m, head, body)
}

// The n-th content header.
#[unsafe(no_mangle)]
pub extern "C" fn cpim_content_header(m: CpimMessage, head: &[u8], n: usize) -> Pair
    ensures { (o : Option Message) → Held (head_lent m head.now) o → PairIs head.now (content_place o n) (get_content o n) result }
{
    lookup_places::standing::content_place(m, head, n)
}

#[unsafe(no_mangle)]
pub extern "C" fn cpim_header_value(h: CpimHeader, store: &[u8]) -> Part
    ensures { (o : Option LoneHeader) → HeldAlone h store.now o → PartIs store.now 16 (alone_value o) result }
{
    lookup_places::standing::alone_value_place(h, store)
}

// The n-th parameter of a header alone.
#[unsafe(no_mangle)]
pub extern "C" fn cpim_header_param(h: CpimHeader, store: &[u8], n: usize) -> Pair
    ensures { (o : Option LoneHeader) → HeldAlone h store.now o → PairIs store.now (alone_param_place o n) (alone_param o n) result }
{
    lookup_places::standing::alone_param_place(h, store, n)
}

#[unsafe(no_mangle)]
pub extern "C" fn cpim_count_headers(m: CpimMessage, head: &[u8]) -> usize
    ensures { (o : Option Message) → Held (head_lent m head.now) o → result ≡ count_headers o }
{
    lookup::counts::count_headers(m, head)
}

#[unsafe(no_mangle)]
pub extern "C" fn cpim_count_params(m: CpimMessage, head: &[u8]) -> usize
    ensures { (o : Option Message) → Held (head_lent m head.now) o → result ≡ count_params o }
{
    lookup::counts::count_params(m, head)
}

#[unsafe(no_mangle)]
pub extern "C" fn cpim_count_contents(m: CpimMessage, head: &[u8]) -> usize
    ensures { (o : Option Message) → Held (head_lent m head.now) o → result ≡ count_contents o }
{
    lookup::counts::count_contents(m, head)
}

// Where all of them stand: four numbers for each header, parameter and content header.
#[unsafe(no_mangle)]
pub extern "C" fn cpim_places(m: CpimMessage, head: &[u8], out: &mut [usize]) -> Numbers
    ensures { Placed (head_lent m head.now) out.old out.new result }
{
    numbers(lookup_places::places(m, head, out))
}

// The address in a value.
#[unsafe(no_mangle)]
pub extern "C" fn cpim_address(value: &[u8]) -> Part
    ensures { PartIs value.now (address_place value.now) (address value.now) result }
{
    lookup_places::standing::address_place(value)
}

// The second call for the body without a store: a part of the text or of the buffer.
#[unsafe(no_mangle)]
pub extern "C" fn cpim_body_part(text: &[u8], buffer: &[u8], length: usize) -> BodyPlace
    ensures { PlaceIs text.now buffer.now length result }
{
    read_split::body_place(text, buffer, length).unwrap_or(read_split::nowhere())
}
