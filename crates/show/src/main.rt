// Reads a table file from standard input, and prints its flows or why it is refused.
#![tactic(auto)]

use listing::show;
use std::io;
use std::io::{Read, Write};

// So many bytes settle the answer, so that an input of any length, even one without end, is answered.
const ENOUGH: u64 = 1024;

fn main(rt: HostRuntime) -> io::Result<()> {
    // (`admit` has these two lines too; a crate for them alone would be longer and say no more)
    let mut bytes = Vec::new(rt.alloc());
    rt.stdin().take(ENOUGH).read_to_end(&mut bytes)?;
    let text = show(bytes.as_slice());
    rt.stdout().write_all(text.as_bytes())
}
