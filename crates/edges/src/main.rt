#![tactic(auto)]

use anyhow::bail;
use arena::Refusal;
use solver::solve;
use std::fs;
use strip::{OpenedStrip, open};

/// What all memory holds before a call.
const OLD: u8 = 7;

// How many of the items are `x`.
fn count_of<T: PartialEq>(items: &[T], x: &T) -> usize {
    items.iter().filter(|y| *y == x).count()
}

// Solves with memories of so many bytes and numbers, and prints the answer and what the memories then hold.
fn attempt(
    rt: &HostRuntime,
    arena: &OpenedStrip,
    bytes: usize,
    numbers: usize,
) -> anyhow::Result<()> {
    let mut certificate = vec![in rt.alloc(); OLD; bytes]?;
    let mut work = vec![in rt.alloc(); u16::from(OLD); numbers]?;
    print!(rt; "{bytes} bytes, {numbers} numbers: ")?;
    match solve(arena, certificate.as_mut_slice(), work.as_mut_slice()) {
        Ok((c, s)) => println!(rt; "accepted {c} {s}")?,
        Err(fault) => println!(rt; "{}", Refusal::from(fault))?,
    }
    let old = count_of(&certificate, &OLD);
    println!(rt; "  bytes as they were {old}")?;
    if let Some(last) = certificate.last() {
        println!(rt; "  last byte {last}")?;
    }
    let old = count_of(&work, &u16::from(OLD));
    let zero = count_of(&work, &0);
    println!(rt; "  numbers as they were {old}, zero {zero}")?;
    if let Some(last) = work.last() {
        println!(rt; "  last number {last}")?;
    }
    Ok(())
}

/// Solves the plant of three positions in a line with memories of just the right length, one short, and one long.
fn main(rt: HostRuntime) -> anyhow::Result<()> {
    let strip = fs::read(&rt, "line.strip")?;
    let mut arena = OpenedStrip::empty();
    if open(&strip, &mut arena).is_err() {
        bail!("the strip does not open");
    }
    attempt(&rt, &arena, 64, 24)?;
    attempt(&rt, &arena, 63, 24)?;
    attempt(&rt, &arena, 64, 23)?;
    attempt(&rt, &arena, 65, 25)?;
    attempt(&rt, &arena, 0, 0)
}
