#![tactic(auto)]

use anyhow::bail;
use arena::Refusal;
use control::{RunFault, Runner, check};
use std::fs;
use strip::{OpenedStrip, open};

/// Prints what check answers.
fn say(rt: &HostRuntime, arena: &OpenedStrip, certificate: &[u8]) -> anyhow::Result<()> {
    match check(arena, certificate) {
        Ok(c) => println!(rt; " accepted {c}")?,
        Err(fault) => println!(rt; " {}", Refusal::from(fault))?,
    }
    Ok(())
}

/// Goes through the bytes of a certificate: each is one more, turned and zero, and then what it was.
fn damage(rt: &HostRuntime, arena: &OpenedStrip, certificate: &mut [u8]) -> anyhow::Result<()> {
    for i in 0..certificate.len() {
        let old = certificate[i];
        for new in [old.wrapping_add(1), 255 - old, 0] {
            print!(rt; "byte {i} {new}")?;
            certificate[i] = new;
            say(rt, arena, certificate)?;
        }
        certificate[i] = old;
    }
    Ok(())
}

/// Prints what a runner answers.
fn tell(rt: &HostRuntime, answer: Result<(u16, u16), RunFault>) -> anyhow::Result<()> {
    match answer {
        Ok((position, aim)) => println!(rt; " at {position} aim {aim}")?,
        Err(fault) => println!(rt; " {}", Refusal::from(fault))?,
    }
    Ok(())
}

/// Runs from position 0: a go with no bytes, one with another move in the first field of position 0, and four that are right.
fn steer(
    rt: &HostRuntime,
    mut runner: Runner<OpenedStrip>,
    certificate: &mut [u8],
) -> anyhow::Result<()> {
    print!(rt; "start")?;
    tell(rt, runner.start(certificate, 0))?;
    print!(rt; "go by no bytes")?;
    tell(rt, runner.go(&[]))?;
    if certificate.len() > 18 {
        let old = certificate[18];
        certificate[18] = 9;
        print!(rt; "go by another move")?;
        tell(rt, runner.go(certificate))?;
        certificate[18] = old;
    }
    for _ in 0..4u8 {
        print!(rt; "go")?;
        tell(rt, runner.go(certificate))?;
    }
    Ok(())
}

/// Judges one certificate of the data folder: as it is, one byte short, one byte long, and damaged byte by byte; then runs it.
fn judge(rt: &HostRuntime, name: &str) -> anyhow::Result<()> {
    let bytes = fs::read(rt, format!(in rt.alloc(); "{name}.strip")?)?;
    let mut arena = OpenedStrip::empty();
    if open(&bytes, &mut arena).is_err() {
        bail!("a strip of the list does not open");
    }
    let mut certificate = fs::read(rt, format!(in rt.alloc(); "{name}.certificate")?)?;
    print!(rt; "certificate {name}")?;
    say(rt, &arena, &certificate)?;
    print!(rt; "short")?;
    let short = certificate.len().saturating_sub(1);
    say(rt, &arena, &certificate[..short])?;
    print!(rt; "long")?;
    certificate.push(0)?;
    say(rt, &arena, &certificate)?;
    let _ = certificate.pop();
    damage(rt, &arena, certificate.as_mut_slice())?;
    steer(rt, Runner::new(arena), certificate.as_mut_slice())
}

/// Goes through the certificates that the list names.
fn main(rt: HostRuntime) -> anyhow::Result<()> {
    let names = fs::read_to_string(&rt, "list")?;
    for name in names.as_str().lines() {
        judge(&rt, name)?;
    }
    Ok(())
}
