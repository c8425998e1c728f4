// What is asked of an entry by its kind: the validators of name and value, its parameters, and the name before it
// (specs/Kinds.antt).

ghost use Rattle.std.specs.Prelude.{◌≡◌};
ghost use Rattle.format.specs.Refusals.{passes};
ghost use Rattle.store_entry_check.specs.Kinds.{name_check, value_check, params_fit, follows};

use octets::compare::before;

pub const MAX_PARAMS_PER_HEADER: usize = 10;

// What an entry is.
#[derive(Clone, Copy)]
pub enum Kind {
    Header,
    Param,
    Content,
}

#[tactic(auto, unfolding(crate::specs::Kinds::name_check), using(validate::proofs::Chains::ok_passes))]
pub fn name_passes(kind: Kind, name: &[u8]) -> bool
    ensures { result ≡ passes (name_check kind name.now) }
{
    match kind {
        Kind::Header | Kind::Content => validate::validate_header_name(name).is_ok(),
        Kind::Param => validate::validate_param_name(name).is_ok(),
    }
}

#[tactic(auto, unfolding(crate::specs::Kinds::value_check), using(validate::proofs::Chains::ok_passes))]
pub fn value_passes(kind: Kind, value: &[u8]) -> bool
    ensures { result ≡ passes (value_check kind value.now) }
{
    match kind {
        Kind::Header => validate::validate_cpim_header_value(value).is_ok(),
        Kind::Param => validate::validate_param_value(value).is_ok(),
        Kind::Content => validate::validate_content_header_value(value).is_ok(),
    }
}

// Parameters have none of their own, and neither have content headers.
#[tactic(auto, unfolding(crate::specs::Kinds::params_fit), using(validate::proofs::EmptyText::empty_length))]
pub fn params_fit(kind: Kind, params: usize, tail: &[u8]) -> bool
    ensures { result ≡ params_fit kind params tail.now }
{
    match kind {
        Kind::Header => params <= MAX_PARAMS_PER_HEADER,
        Kind::Param | Kind::Content => params == 0 && tail.is_empty(),
    }
}

// Whether a name may stand behind the last one.
#[tactic(auto, unfolding(crate::specs::Kinds::follows))]
pub fn name_follows(kind: Kind, last: &[u8], name: &[u8]) -> bool
    ensures { result ≡ follows kind last.now name.now }
{
    match kind {
        Kind::Header => !before(name, last),
        Kind::Param | Kind::Content => before(last, name),
    }
}
