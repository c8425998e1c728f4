// The changing calls of two texts: each takes the head store alone, and is a run of one call.

ghost use Rattle.std.specs.Prelude.{[], ◌∷◌};
ghost use Rattle.format.specs.Bytes.{Bytes};
ghost use Rattle.format.specs.Runs.{Run};
ghost use Rattle.calls_script.specs.Script.{state, pair_meant};

use calls_script::PairCall;
use format::CpimMessage;
use message::builders;

// A call of two texts.
#[tactic(auto, using(crate::proofs::CallRuns::head_run, crate::proofs::CallRuns::body_run), unfolding(format::specs::Calls::lends))]
pub fn pair_call(
    call: PairCall,
    first: &[u8],
    second: &[u8],
    m: CpimMessage,
    head: &mut [u8],
) -> CpimMessage
    ensures { (body : Bytes) → Run (state m head.old body) (pair_meant call first.now second.now ∷ []) (state result head.new body) }
{
    match call {
        PairCall::SetHeader => message::set_header(m, head, first, second).unwrap_or(m),
        PairCall::AddHeader => message::add_header(m, head, first, second).unwrap_or(m),
        PairCall::AddContentHeader => message::add_content_header(m, head, first, second).unwrap_or(
            m,
        ),
        PairCall::WithSubjectLang => builders::with_subject_lang(m, head, first, second).unwrap_or(
            m,
        ),
        PairCall::WithNs => builders::with_ns(m, head, first, second).unwrap_or(m),
        PairCall::WithContentHeader => builders::with_content_header(
            m, head, first, second,
        ).unwrap_or(m),
    }
}
