// Reads a good table file from standard input, damages it in many ways, and prints each refusal.
#![tactic(auto)]

use listing::show;
use std::io;
use std::io::{Read, Write};

const VALUES: [u8; 5] = [0, 1, 2, 3, 255];

fn print_shown(rt: &HostRuntime, bytes: &[u8]) -> io::Result<()> {
    let text = show(bytes);
    rt.stdout().write_all(text.as_bytes())
}

// Every front of the file that is not the whole.
fn cuts(rt: &HostRuntime, bytes: &[u8]) -> io::Result<()> {
    for n in 0..bytes.len() {
        print!(rt; "cut {n} ")?;
        print_shown(rt, &bytes[0..n])?;
    }
    Ok(())
}

// The byte at `at` replaced by each of the values; a file that is good all the same is passed over.
fn changes(rt: &HostRuntime, bytes: &mut Vec<u8>, at: usize) -> io::Result<()> {
    let Some(kept) = bytes.get(at).copied() else {
        return Ok(());
    };
    for value in VALUES {
        bytes[at] = value;
        if show(bytes.as_slice()).as_bytes().starts_with(b"refused") {
            print!(rt; "byte {at} made {value} ")?;
            print_shown(rt, bytes.as_slice())?;
        }
    }
    bytes[at] = kept;
    Ok(())
}

// A file with the first flow 65 times, once more than a file may have flows.
fn crowded(rt: &HostRuntime, bytes: &[u8]) -> io::Result<()> {
    let (Some(head), Some(flow)) = (bytes.get(0..8), bytes.get(8..20)) else {
        return Ok(());
    };
    let mut file = Vec::from_slice(rt.alloc(), head)?;
    for _ in 0..65 {
        file.extend_from_slice(flow)?;
    }
    file.extend_from_slice(&[2, 0, 3, 0, 65, 0])?;
    print!(rt; "65 flows ")?;
    print_shown(rt, file.as_slice())
}

fn main(rt: HostRuntime) -> io::Result<()> {
    let mut bytes = Vec::new(rt.alloc());
    rt.stdin().read_to_end(&mut bytes)?;
    cuts(&rt, bytes.as_slice())?;
    crowded(&rt, bytes.as_slice())?;
    // (by index: a byte is changed while the whole file is shown)
    for at in 0..bytes.len() {
        changes(&rt, &mut bytes, at)?;
    }
    bytes.push(0)?;
    print!(rt; "one more ")?;
    print_shown(&rt, bytes.as_slice())
}
