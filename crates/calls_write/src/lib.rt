// Demand 3 through the functions, to the end: a list of calls begun by a text read or by `new`, and then the text of the message that is
// held. What is written is the text of the message that the beginning and the calls define.

#![tactic(auto)]

pub mod begun;

ghost use Rattle.std.specs.Prelude.{◌≡◌};
ghost use Rattle.format.specs.Calls.{new};
ghost use Rattle.format.specs.Reading.{read};
ghost use Rattle.format.specs.Layout.{empty_message};
ghost use Rattle.format.specs.Lending.{both_lent, lengths, zeroed};
ghost use Rattle.format.specs.Told.{told};
ghost use Rattle.std.specs.Result.{result_unwrap_or};
ghost use Rattle.format.specs.declared.CpimMessage.{CpimMessage};
ghost use Rattle.format.specs.declared.Numbers.{Numbers};
ghost use Rattle.calls_script.specs.Script.{state, calls_in};
ghost use Rattle.calls_write.specs.Began.{ReadThenRun, MadeThenRun};
ghost use Rattle.calls_write.specs.Sent.{Sent};

use crate::begun::{new_and_run, read_and_run};
use format::Refusal;
use write::to_string;

// A text read, the calls, the text.
pub fn read_run_write(
    text: &[u8],
    script: &[u8],
    head: &mut [u8],
    body: &mut [u8],
    out: &mut [u8],
) -> Result<usize, Refusal>
    ensures steps { (k : CpimMessage) × (n : Numbers) × ReadThenRun text.now (both_lent empty_message head.old body.old) (calls_in script.now) (state k head.new body.new) n }
    ensures sent { Sent (read text.now (lengths (both_lent empty_message head.old body.old))) (lengths (both_lent empty_message head.old body.old)) (calls_in script.now) (both_lent empty_message (zeroed head.old) (zeroed body.old)) head.new body.new out.old out.new (told result) (result_unwrap_or result 0) }
{
    let begun = read_and_run(text, script, head, body)?;
    to_string(begun, head, body, out)
}

// A message of a type and a body, the calls, the text.
pub fn new_run_write(
    content_type: &[u8],
    content: &[u8],
    script: &[u8],
    head: &mut [u8],
    body: &mut [u8],
    out: &mut [u8],
) -> Result<usize, Refusal>
    ensures steps { (k : CpimMessage) × (n : Numbers) × MadeThenRun content_type.now content.now (both_lent empty_message head.old body.old) (calls_in script.now) (state k head.new body.new) n }
    ensures sent { Sent (new content_type.now content.now (lengths (both_lent empty_message head.old body.old))) (lengths (both_lent empty_message head.old body.old)) (calls_in script.now) (both_lent empty_message head.old body.old) head.new body.new out.old out.new (told result) (result_unwrap_or result 0) }
{
    let made = new_and_run(content_type, content, script, head, body)?;
    to_string(made, head, body, out)
}
