// Demand 3's list of calls, begun by a text read or by `new`, through the functions themselves: the message held afterwards is the one that
// the text, or the type and the body, and the calls define. A script of calls is crates/calls_script/specs/Script.antt.

ghost use Rattle.format.specs.Calls.{new};
ghost use Rattle.format.specs.Reading.{read};
ghost use Rattle.format.specs.Layout.{empty_message};
ghost use Rattle.format.specs.Lending.{both_lent, lengths, zeroed};
ghost use Rattle.format.specs.Told.{told};
ghost use Rattle.std.specs.Result.{result_unwrap_or};
ghost use Rattle.calls_script.specs.Script.{state, calls_in};
ghost use Rattle.calls_write.specs.Began.{Began, ReadThenRun, MadeThenRun};

use calls_run::run;
use format::{CpimMessage, Refusal};
use read::parse_cpim;

// A text read, then the calls; refused, no call is made.
pub fn read_and_run(
    text: &[u8],
    script: &[u8],
    head: &mut [u8],
    body: &mut [u8],
) -> Result<CpimMessage, Refusal>
    ensures steps { ReadThenRun text.now (both_lent empty_message head.old body.old) (calls_in script.now) (state (result_unwrap_or result empty_message) head.new body.new) (told result) }
    ensures began { Began (read text.now (lengths (both_lent empty_message head.old body.old))) (lengths (both_lent empty_message head.old body.old)) (calls_in script.now) (both_lent empty_message (zeroed head.old) (zeroed body.old)) (both_lent (result_unwrap_or result empty_message) head.new body.new) (told result) }
{
    let parsed = parse_cpim(text, head, body)?;
    Ok(run(script, parsed, head, body))
}

// A message of a type and a body, then the calls; refused, no call is made.
pub fn new_and_run(
    content_type: &[u8],
    content: &[u8],
    script: &[u8],
    head: &mut [u8],
    body: &mut [u8],
) -> Result<CpimMessage, Refusal>
    ensures steps { MadeThenRun content_type.now content.now (both_lent empty_message head.old body.old) (calls_in script.now) (state (result_unwrap_or result empty_message) head.new body.new) (told result) }
    ensures began { Began (new content_type.now content.now (lengths (both_lent empty_message head.old body.old))) (lengths (both_lent empty_message head.old body.old)) (calls_in script.now) (both_lent empty_message head.old body.old) (both_lent (result_unwrap_or result empty_message) head.new body.new) (told result) }
{
    let made = message::new(content_type, content, head, body)?;
    Ok(run(script, made, head, body))
}
