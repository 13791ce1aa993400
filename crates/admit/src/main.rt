// Reads a table file from standard input, and prints its listing: its bounds or why it is refused.
#![tactic(auto)]

use listing::list;
use std::io;
use std::io::{Read, Write};

// So many bytes settle the answer, so that an input of any length, even one without end, is answered.
const ENOUGH: u64 = 1024;

fn main(rt: HostRuntime) -> io::Result<()> {
    // (`show` has these two lines too; a crate for them alone would be longer and say no more)
    let mut bytes = Vec::new(rt.alloc());
    rt.stdin().take(ENOUGH).read_to_end(&mut bytes)?;
    // No listing is longer than this place.
    let mut place = [0; 8192];
    let n = list(bytes.as_slice(), &mut place).unwrap();
    rt.stdout().write_all(&place[0..n])
}
