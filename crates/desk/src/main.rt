// Plays a session script from standard input: one command a line in, its answer out.
#![tactic(auto)]

mod desk;
mod fault;

use desk::Desk;
use std::io;
use std::io::{BufRead, BufReader, BufWriter};

fn main(rt: HostRuntime) -> io::Result<()> {
    let out = BufWriter::new(rt.alloc(), rt.stdout())?;
    let mut desk = Desk::new(rt.alloc(), out);
    for line in BufReader::new(rt.alloc(), rt.stdin())?.split(rt.alloc(), b'\n') {
        let line = line?;
        desk.play(line.as_slice())?;
    }
    desk.flush()
}
