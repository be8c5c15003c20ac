// Reads lines that carry packets from standard input, and prints for each what its packet says or why it is refused.
#![tactic(auto)]

use packet_text::answer;
use std::io;
use std::io::{BufRead, BufReader, Write};
use std::rt::HostRuntime;

fn main(rt: HostRuntime) -> io::Result<()> {
    let mut out = rt.stdout();
    for line in BufReader::new(rt.alloc(), rt.stdin())?.split(rt.alloc(), b'\n') {
        let text = answer(rt.alloc(), &line?)?;
        writeln!(out, "{text}")?;
    }
    Ok(())
}
