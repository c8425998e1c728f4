// A script of changing calls, run on a message in lent stores: each call gets the record that the last handed back and the stores it
// takes, as last left.

#![tactic(auto)]

mod pair_calls;
mod text_calls;

ghost use Rattle.std.specs.Prelude.{◌≡◌, true, ◌+◌, ◌<◌, length, drop, get_or};
ghost use Rattle.format.specs.Bytes.{Bytes};
ghost use Rattle.format.specs.Message.{Message};
ghost use Rattle.format.specs.Layout.{Holds};
ghost use Rattle.format.specs.Lending.{both_lent, lengths};
ghost use Rattle.format.specs.Runs.{Run};
ghost use Rattle.format.specs.Demand3.{after};
ghost use Rattle.calls_script.specs.Script.{state, header_whole, header, form_of, complete, called, calls_in};

use crate::pair_calls::pair_call;
use crate::text_calls::text_call;
use calls_script::{Form, argument_at, behind, call_end, form_of, number_at};
use format::{CpimHeader, CpimMessage};
use message_add_obj::add_header_obj;

// `add_header_obj`: a name, the header's record, its store.
fn header_call(script: &[u8], at: usize, m: CpimMessage, head: &mut [u8]) -> CpimMessage
    requires { header_whole (drop at script.now) ≡ true }
    ensures { (body : Bytes) → Run (state m head.old body) (called header (drop at script.now)) (state result head.new body) }
{
    let name = argument_at(script, at);
    let next = behind(script, at);
    let h = CpimHeader {
        valuelen: number_at(script, next),
        params: number_at(script, next + 4),
        size: number_at(script, next + 8),
    };
    let store = argument_at(script, next + 12);
    add_header_obj(m, head, name, h, store).unwrap_or(m)
}

// The call at a place, where it stands whole.
fn run_call(
    script: &[u8],
    at: usize,
    m: CpimMessage,
    head: &mut [u8],
    body: &mut [u8],
) -> CpimMessage
    requires within { at < length script.now }
    requires whole { complete (form_of (get_or script.now at 0)) (drop (at + 1) script.now) ≡ true }
    ensures { Run (state m head.old body.old) (called (form_of (get_or script.now at 0)) (drop (at + 1) script.now)) (state result head.new body.new) }
{
    let from = at + 1;
    match form_of(script[at]) {
        Some(Form::Text(call)) => text_call(call, argument_at(script, from), m, head, body),
        Some(Form::Pair(call)) => {
            let first = argument_at(script, from);
            let second = argument_at(script, behind(script, from));
            pair_call(call, first, second, m, head)
        }
        Some(Form::AddHeaderObj) => header_call(script, from, m, head),
        None => m,
    }
}

// The calls of a script, one behind another, refused ones among them.
pub fn run(script: &[u8], m: CpimMessage, head: &mut [u8], body: &mut [u8]) -> CpimMessage
    ensures run { Run (state m head.old body.old) (calls_in script.now) (state result head.new body.new) }
    ensures held { (k : Message) → Holds (both_lent m head.old body.old) k → Holds (both_lent result head.new body.new) (after (lengths (both_lent m head.old body.old)) k (calls_in script.now)) }
{
    let mut so_far = m;
    let mut at = 0;
    while let Some(next) = call_end(script, at) {
        so_far = run_call(script, at, so_far, head, body);
        at = next;
    }
    so_far
}
