// Packets in lines of text: what a line asks, and what is printed in answer.
#![tactic(auto)]

ghost use Rattle.std.specs.Prelude.{IfOk, string_bytes};
ghost use Rattle.packet_text.specs.Lines.{Answers};

use std::alloc::Global;
use std::fmt;

mod asking;
mod line;
mod printing;

// The text that answers a line: what its packet says, why the packet is refused, or `bad`. It fails only for want of memory.
pub fn answer(heap: Global, line: &[u8]) -> Result<String, fmt::Error>
    ensures { IfOk result (λ text. Answers line.now (string_bytes text)) }
{
    let mut room = [0; 2048];
    match asking::asked(line, &mut room) {
        Some(asked) => Ok(printing::reply(heap, &asked)?),
        None => Ok(format!(in heap; "bad")?),
    }
}
