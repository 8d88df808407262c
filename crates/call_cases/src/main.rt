// Makes recorded calls of the libraries: one call a line in, its answer a line out (docs/CASES.md).
#![tactic(auto)]

mod answer;
mod cells;
mod fault;
mod host;
mod layouts;
mod line;
mod orders;
mod picks;
mod tables;

use answer::print;
use fault::Fault;
use host::Host;
use std::io;
use std::io::{BufRead, BufReader, BufWriter, Write};

fn main(rt: HostRuntime) -> io::Result<()> {
    let mut out = BufWriter::new(rt.alloc(), rt.stdout())?;
    let mut host = Host::new(rt.alloc());
    for line in BufReader::new(rt.alloc(), rt.stdin())?.split(rt.alloc(), b'\n') {
        let line = line?;
        if !line.is_empty() && !line.starts_with(b"#") {
            match host.answer(line.as_slice()) {
                Ok(answer) => print(&mut out, &answer)?,
                Err(Fault::Memory(fault)) => return Err(io::Error::from(fault)),
                Err(fault) => writeln!(out, "{fault}")?,
            }
        }
    }
    out.flush()
}
