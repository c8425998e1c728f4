// Document 01, "Validators", under the source's names. Each answers with the first refusal, in the order of
// crates/format/specs/Validators.antt.

#![tactic(auto, unfolding(format::specs::Validators::header_name, format::specs::Validators::header_value, format::specs::Validators::param_name, format::specs::Validators::param_value, format::specs::Validators::content_type, format::specs::Validators::content_value, format::specs::Refusals::at_most, format::specs::Told::meant), using(crate::proofs::Chains::chains, crate::proofs::EmptyText::lengths))]

mod classes;

ghost use Rattle.std.specs.Prelude.{◌≡◌};
ghost use Rattle.format.specs.Refusals.{refuse_if};
ghost use Rattle.format.specs.Told.{meant, checked};
ghost use Rattle.format.specs.Validators.{header_name, header_value, param_name, param_value, content_type, content_value};

use crate::classes::{
    any_in, is_ascii_control, reserved_in_name, reserved_in_param_name, reserved_in_param_value,
};
use format::Refusal;

pub const MAX_HEADER_NAME_LENGTH: usize = 128;

pub const MAX_HEADER_VALUE_LENGTH: usize = 1024;

pub const MAX_PARAM_NAME_LENGTH: usize = 64;

pub const MAX_PARAM_VALUE_LENGTH: usize = 256;

pub const MAX_CONTENT_TYPE_LENGTH: usize = 256;

// The refusal, where the test holds.
#[tactic(auto, unfolding(format::specs::Refusals::refuse_if, format::specs::Told::checked))]
pub fn refuse_if(test: bool, refusal: Refusal) -> Result<(), Refusal>
    ensures { checked result ≡ refuse_if test (meant refusal) }
{
    if test { Err(refusal) } else { Ok(()) }
}

// 6, 7, 8, 9 in that order.
pub fn validate_header_name(s: &[u8]) -> Result<(), Refusal>
    ensures { checked result ≡ header_name s.now }
{
    refuse_if(s.is_empty(), Refusal::NameEmpty)?;
    refuse_if(
        MAX_HEADER_NAME_LENGTH < s.len(),
        Refusal::NameTooLong(s.len()),
    )?;
    refuse_if(any_in(s, is_ascii_control), Refusal::NameControl)?;
    refuse_if(any_in(s, reserved_in_name), Refusal::NameReserved)
}

// 10 only.
pub fn validate_cpim_header_value(s: &[u8]) -> Result<(), Refusal>
    ensures { checked result ≡ header_value s.now }
{
    refuse_if(
        MAX_HEADER_VALUE_LENGTH < s.len(),
        Refusal::ValueTooLong(s.len()),
    )
}

// 12, 13, 14.
pub fn validate_param_name(s: &[u8]) -> Result<(), Refusal>
    ensures { checked result ≡ param_name s.now }
{
    refuse_if(s.is_empty(), Refusal::ParamNameEmpty)?;
    refuse_if(
        MAX_PARAM_NAME_LENGTH < s.len(),
        Refusal::ParamNameTooLong(s.len()),
    )?;
    refuse_if(
        any_in(s, reserved_in_param_name),
        Refusal::ParamNameReserved,
    )
}

// 15, 16; it may be empty.
pub fn validate_param_value(s: &[u8]) -> Result<(), Refusal>
    ensures { checked result ≡ param_value s.now }
{
    refuse_if(
        MAX_PARAM_VALUE_LENGTH < s.len(),
        Refusal::ParamValueTooLong(s.len()),
    )?;
    refuse_if(
        any_in(s, reserved_in_param_value),
        Refusal::ParamValueReserved,
    )
}

// 17, 18, 19.
pub fn validate_content_type(s: &[u8]) -> Result<(), Refusal>
    ensures { checked result ≡ content_type s.now }
{
    refuse_if(s.is_empty(), Refusal::TypeEmpty)?;
    refuse_if(
        MAX_CONTENT_TYPE_LENGTH < s.len(),
        Refusal::TypeTooLong(s.len()),
    )?;
    refuse_if(any_in(s, is_ascii_control), Refusal::TypeControl)
}

// 10, as for every value, and 11.
pub fn validate_content_header_value(s: &[u8]) -> Result<(), Refusal>
    ensures { checked result ≡ content_value s.now }
{
    validate_cpim_header_value(s)?;
    refuse_if(any_in(s, is_ascii_control), Refusal::ContentControl)
}
