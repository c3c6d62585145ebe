#![tactic(auto)]

mod answers;
mod desk;
mod drawing;
mod hand;
mod hex;
mod perform;
mod solving;
mod words;

use drawing::drawn;
use std::io::Read;
use std::{env, fs};

/// As many bytes as are read of the list of calls; what comes after them is not performed.
const LIMIT: u64 = 1048576;

/// Reads a list of calls from standard input, performs them on one sheet, and prints each answer and then the strip that
/// the sheet is. Two arguments name files for the strip and for the certificate of the last accepted solve.
fn main(rt: HostRuntime) -> anyhow::Result<()> {
    let mut calls = String::new(rt.alloc());
    rt.stdin().take(LIMIT).read_to_string(&mut calls)?;
    let drawing = drawn(rt.alloc(), calls.as_str())?;
    rt.print(drawing.text)?;
    let mut words = env::args(&rt)?.skip(1);
    if let (Some(strip), Some(certificate)) = (words.next(), words.next()) {
        fs::write(&rt, strip, drawing.strip)?;
        fs::write(&rt, certificate, drawing.certificate)?;
    }
    Ok(())
}
