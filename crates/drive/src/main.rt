#![tactic(auto)]

use anyhow::bail;
use arena::Refusal;
use control::{Event, Runner, check};
use std::{env, fs};
use strip::{OpenedStrip, open};

/// The event that a line names.
fn event_of(line: &str) -> Option<Event> {
    if line == "go" {
        return Some(Event::Go);
    }
    match line.split_once(' ')? {
        ("start", p) => Some(Event::Start(p.parse::<u16>().ok()?)),
        ("moved", q) => Some(Event::Moved(q.parse::<u16>().ok()?)),
        _ => None,
    }
}

/// Puts one line to the runner, and prints where it is then or why it refuses.
fn follow(
    rt: &HostRuntime,
    runner: &mut Runner<OpenedStrip>,
    certificate: &[u8],
    line: &str,
) -> anyhow::Result<()> {
    let Some(event) = event_of(line) else {
        println!(rt; "{line}: no event")?;
        return Ok(());
    };
    match runner.on(certificate, event) {
        Ok((position, aim)) => println!(rt; "{line}: at {position} aim {aim}")?,
        Err(fault) => println!(rt; "{line}: {}", Refusal::from(fault))?,
    }
    Ok(())
}

/// Opens the strip and checks the certificate that the arguments name, then runs the events of standard input, a line each:
/// `start P`, `go` and `moved Q`.
fn main(rt: HostRuntime) -> anyhow::Result<()> {
    let mut words = env::args(&rt)?.skip(1);
    let (Some(strip), Some(table)) = (words.next(), words.next()) else {
        bail!("usage: drive STRIP CERTIFICATE");
    };
    let bytes = fs::read(&rt, strip)?;
    let certificate = fs::read(&rt, table)?;
    let mut arena = OpenedStrip::empty();
    if let Err(fault) = open(&bytes, &mut arena) {
        println!(rt; "strip {}", Refusal::from(fault))?;
        return Ok(());
    }
    match check(&arena, &certificate) {
        Ok(c) => println!(rt; "certificate accepted {c}")?,
        Err(fault) => {
            println!(rt; "certificate {}", Refusal::from(fault))?;
            return Ok(());
        }
    }
    let mut runner = Runner::new(arena);
    for line in rt.lines(rt.alloc()) {
        follow(&rt, &mut runner, &certificate, line?.as_str())?;
    }
    Ok(())
}
