// Reads a sheet from standard input and says whether it is accepted under the two-party order.
#![tactic(auto)]

use std::io;
use std::io::Read;
use verdict::verdict_line;

// How many bytes are read: one more than the longest sheet has.
const MOST: u64 = 6405;

fn main(rt: HostRuntime) -> io::Result<()> {
    let mut input = Vec::new(rt.alloc());
    rt.stdin().take(MOST).read_to_end(&mut input)?;
    let line = verdict_line(rt.alloc(), input.as_slice())?;
    println!(rt; "{line}")
}
