// Reads an hour file from standard input, and prints its listing or the line of its fault.
#![tactic(auto)]

use listing::printed;
use std::io;
use std::io::{Read, Write};

// One byte more than the longest file: what is longer need not be read.
const MOST_READ: u64 = 65_537;

fn main(rt: HostRuntime) -> io::Result<()> {
    let mut file = Vec::new(rt.alloc());
    rt.stdin().take(MOST_READ).read_to_end(&mut file)?;
    let text = printed(rt.alloc(), file.as_slice())?;
    rt.stdout().write_all(text.as_bytes())
}
