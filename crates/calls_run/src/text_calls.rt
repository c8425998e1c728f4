// The changing calls of one text: each is a run of one call.

ghost use Rattle.std.specs.Prelude.{[], ◌∷◌};
ghost use Rattle.format.specs.Runs.{Run};
ghost use Rattle.calls_script.specs.Script.{state, text_meant};

use calls_script::TextCall;
use format::CpimMessage;
use message::builders;

// A call of one text; a body alone takes the body store.
#[tactic(auto, using(crate::proofs::CallRuns::head_run, crate::proofs::CallRuns::body_run), unfolding(format::specs::Calls::lends))]
pub fn text_call(
    call: TextCall,
    text: &[u8],
    m: CpimMessage,
    head: &mut [u8],
    body: &mut [u8],
) -> CpimMessage
    ensures { Run (state m head.old body.old) (text_meant call text.now ∷ []) (state result head.new body.new) }
{
    match call {
        TextCall::SetBody => message::set_body(m, head, body, text).unwrap_or(m),
        TextCall::WithFrom => builders::with_from(m, head, text).unwrap_or(m),
        TextCall::WithTo => builders::with_to(m, head, text).unwrap_or(m),
        TextCall::WithDatetime => builders::with_datetime(m, head, text).unwrap_or(m),
        TextCall::WithSubject => builders::with_subject(m, head, text).unwrap_or(m),
        TextCall::WithCc => builders::with_cc(m, head, text).unwrap_or(m),
        TextCall::WithRequire => builders::with_require(m, head, text).unwrap_or(m),
    }
}
