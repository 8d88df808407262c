// Checks a list of sheets: each line of standard input is a name and a sheet in hexadecimal digits (`-` for no bytes),
// and each line of the output the name and the verdict under the two-party order.
#![tactic(auto)]

use hex_text::decode;
use std::alloc::{AllocError, Global};
use std::io;
use std::io::{BufRead, BufReader};
use verdict::verdict_line;

// The verdict on a sheet in digits.
fn judge(heap: Global, digits: &str) -> Result<String, AllocError> {
    let text = if digits == "-" { "" } else { digits };
    match decode(heap, text.as_bytes())? {
        Some(bytes) => verdict_line(heap, bytes.as_slice()),
        None => String::from_str(heap, "no digits"),
    }
}

fn main(rt: HostRuntime) -> io::Result<()> {
    for line in BufReader::new(rt.alloc(), rt.stdin())?.lines(rt.alloc()) {
        let line = line?;
        if let Some((name, digits)) = line.as_str().split_once(' ') {
            let verdict = judge(rt.alloc(), digits)?;
            println!(rt; "{name} {verdict}")?;
        }
    }
    Ok(())
}
