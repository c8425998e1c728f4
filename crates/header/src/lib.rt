// A header alone in its lent store, under the source's names: made with a value, then given parameters. Refused, a call writes
// nothing.
// The record and the store stay two parameters: a call is lent both and hands back the record alone.

#![tactic(auto)]

ghost use Rattle.std.specs.Prelude.{◌≡◌, true, ◌&&◌, List, ◌∷◌, ◌++◌, ◌+◌, ◌≤◌, ◌<◌, length};
ghost use Rattle.std.specs.Result.{result_unwrap_or};
ghost use Rattle.format.specs.Characters.{is_utf8};
ghost use Rattle.format.specs.Message.{Entry, LoneHeader, entry, entry_name, need_entry};
ghost use Rattle.format.specs.Calls.{if_room_alone};
ghost use Rattle.format.specs.Layout.{HoldsAlone, empty_header};
ghost use Rattle.format.specs.Lending.{MadeHeader, ParamSet};
ghost use Rattle.format.specs.Told.{told};
ghost use Rattle.store_entries.specs.Groups.{Grouped};
ghost use Rattle.store_splice.specs.Spliced.{Parted};
ghost use Rattle.store_check.specs.Holding.{header_holds};
ghost use Rattle.header.specs.Alone.{alone_in, with_params, set_in, DoesAlone};

use format::{CpimHeader, Refusal};
use octets::copy_at;
use store_check::header_holds;
use store_entries::groups::{Group, find_group};
use store_entry_check::kinds::MAX_PARAMS_PER_HEADER;
use store_splice::{NewEntry, replace};
use utf8::is_utf8;
use validate::{refuse_if, validate_cpim_header_value, validate_param_name, validate_param_value};

// The parameter of a name.
#[tactic(auto, using(crate::proofs::HeaderBounds::held_bounds))]
fn params_of(h: CpimHeader, store: &[u8], name: &[u8]) -> Group
    requires { header_holds h store.now ≡ true }
    ensures { (k : LoneHeader) → HoldsAlone h store.now k → Grouped entry_name need_entry name.now k.params result.at result.size result.many }
{
    let from = 16 + h.valuelen;
    let end = h.size;
    find_group(&store[from..end], h.params, name)
}

// A parameter in the place of those at a place among the parameters; 25 where there is no room.
#[tactic(auto, using(crate::proofs::HeaderBounds::held_bounds))]
fn splice_param(
    h: CpimHeader,
    store: &mut [u8],
    place: Group,
    name: &[u8],
    value: &[u8],
) -> Result<CpimHeader, Refusal>
    requires held { header_holds h store.old ≡ true }
    requires within { (16 + h.valuelen + (place.at + place.size) ≤ h.size) × (place.many ≤ h.params) }
    requires bytes { (length name.now < 256) × (length value.now < 65536) }
    ensures { (k : LoneHeader) (l g t : List Entry) → HoldsAlone h store.old k → Parted need_entry k.params l g t place.at place.size place.many → DoesAlone (alone_in h store.old) (alone_in (result_unwrap_or result h) store.new) (told result) (if_room_alone (length store.old) (with_params k (l ++ (entry name.now value.now ∷ t)))) }
{
    let new = NewEntry::plain(name, value);
    let from = 16 + h.valuelen;
    replace(store, from + place.at, place.size, h.size, new)?;
    Ok(CpimHeader {
        params: h.params - place.many + 1,
        size: h.size - place.size + new.stored_len(),
        ..h
    })
}

// A parameter set in a header that is held: name, value, 21 even when replacing, 25.
#[tactic(auto, using(crate::proofs::HeaderBounds::held_bounds))]
pub fn set_param_held(
    h: CpimHeader,
    store: &mut [u8],
    name: &[u8],
    value: &[u8],
) -> Result<CpimHeader, Refusal>
    requires { header_holds h store.old ≡ true }
    ensures { (k : LoneHeader) → HoldsAlone h store.old k → DoesAlone (alone_in h store.old) (alone_in (result_unwrap_or result h) store.new) (told result) (set_in name.now value.now (length store.old) k) }
{
    validate_param_name(name)?;
    validate_param_value(value)?;
    let count = h.params + 1;
    refuse_if(MAX_PARAMS_PER_HEADER < count, Refusal::TooManyParams(count))?;
    let place = params_of(h, store, name);
    splice_param(h, store, place, name, value)
}

// A header of a value, with no parameter: 24, value, 25.
pub fn new(value: &[u8], store: &mut [u8]) -> Result<CpimHeader, Refusal>
    ensures { MadeHeader value.now store.old (record { header = result_unwrap_or result empty_header; store = store.new }) (told result) }
{
    refuse_if(!is_utf8(value), Refusal::NotUtf8)?;
    validate_cpim_header_value(value)?;
    let size = 16 + value.len();
    refuse_if(store.len() < size, Refusal::NoRoom(size))?;
    copy_at(store, 0, &[0u8; 16]);
    copy_at(store, 16, value);
    Ok(CpimHeader {
        valuelen: value.len(),
        params: 0,
        size,
    })
}

fn are_texts(name: &[u8], value: &[u8]) -> bool
    ensures { result ≡ (is_utf8 name.now && is_utf8 value.now) }
{
    is_utf8(name) && is_utf8(value)
}

// A parameter set: 25 carrying 0 where no header is held, 24, then as above.
pub fn with_param(
    h: CpimHeader,
    store: &mut [u8],
    name: &[u8],
    value: &[u8],
) -> Result<CpimHeader, Refusal>
    ensures { ParamSet name.now value.now (record { header = h; store = store.old }) (record { header = result_unwrap_or result h; store = store.new }) (told result) }
{
    refuse_if(!header_holds(h, store), Refusal::NoRoom(0))?;
    refuse_if(!are_texts(name, value), Refusal::NotUtf8)?;
    set_param_held(h, store, name, value)
}
