// Whether a name or a value may stand in an entry of a kind: the validators and UTF-8 in one answer (specs/Fitting.antt). A short
// text that is light (weights.rt) passes both at once; any other is put to them.

ghost use Rattle.std.specs.Prelude.{◌≡◌};
ghost use Rattle.store_entry_check.specs.Fitting.{limit_of, name_fits, value_fits};

use crate::kinds::{Kind, name_passes, value_passes};
use crate::weights::is_light;
use utf8::is_utf8;

// What a value may weigh and is let pass.
fn limit_of(kind: Kind) -> usize
    ensures { result ≡ limit_of kind }
{
    match kind {
        Kind::Header | Kind::Content => 255,
        Kind::Param => 32,
    }
}

#[tactic(auto, unfolding(crate::specs::Fitting::name_fits), using(crate::proofs::LightPasses::name_light, crate::proofs::LightPasses::empty_name_lem, validate::proofs::EmptyText::empty_length))]
pub fn name_fits(kind: Kind, name: &[u8]) -> bool
    ensures { result ≡ name_fits kind name.now }
{
    !name.is_empty() && (is_light(name, 1) || name_passes(kind, name) && is_utf8(name))
}

#[tactic(auto, unfolding(crate::specs::Fitting::value_fits), using(crate::proofs::LightPasses::value_light, validate::proofs::EmptyText::empty_length))]
pub fn value_fits(kind: Kind, value: &[u8]) -> bool
    ensures { result ≡ value_fits kind value.now }
{
    is_light(value, limit_of(kind)) || value_passes(kind, value) && is_utf8(value)
}
