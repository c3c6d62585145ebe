#![tactic(auto)]

use anyhow::bail;
use arena::{Certificate, certificate_bytes};
use control::check;
use fixpoint::winning;
use plants::{Plant, draw, has};
use random::Random;
use solver::solve;
use strip::{OpenedStrip, open};
use strips::strip_of;

mod fixpoint;
mod plants;
mod random;
mod strips;

/// How many plants are drawn.
const PLANTS: u16 = 3000;

/// As many numbers of work memory as twelve positions and three goals take.
const NUMBERS: usize = 12 * (3 + 6);

/// What is found of a plant, or at one of its positions.
#[derive(Clone, Copy, Debug, PartialEq, Eq)]
enum Finding {
    /// A position that the certificate gives to this side.
    Side(u8),
    /// A plant that took several stages.
    SeveralStages,
    /// Solve says otherwise than the other algorithm, or check otherwise than solve.
    Difference,
    /// A certificate that check refuses.
    Refused,
}

/// How often each was found.
#[derive(Clone, Copy, Debug)]
struct Counts {
    positions: u64,
    controllers: u64,
    traffics: u64,
    several_stages: u64,
    differences: u64,
    refused: u64,
}

impl Counts {
    /// Counts what is found.
    fn add(&mut self, finding: Finding) {
        if let Finding::Side(_) = finding {
            self.positions = self.positions.wrapping_add(1);
        }
        let count = match finding {
            Finding::Side(0) => &mut self.controllers,
            Finding::Side(1) => &mut self.traffics,
            Finding::Side(_) => return,
            Finding::SeveralStages => &mut self.several_stages,
            Finding::Difference => &mut self.differences,
            Finding::Refused => &mut self.refused,
        };
        *count = count.wrapping_add(1);
    }
}

/// Solves the plant, which the arena is opened from, and counts what is found.
fn judge(
    rt: &HostRuntime,
    counts: &mut Counts,
    plant: &Plant,
    arena: &OpenedStrip,
) -> anyhow::Result<()> {
    let mut bytes = vec![in rt.alloc(); 0u8; certificate_bytes(arena)]?;
    let mut work = [0; NUMBERS];
    let Ok((c, stages)) = solve(arena, bytes.as_mut_slice(), &mut work) else {
        bail!("a drawn plant is not solved");
    };
    let certificate = Certificate {
        arena,
        bytes: &bytes,
    };
    let set = winning(plant);
    for p in 0..plant.n {
        let side = certificate.side_of(p);
        counts.add(Finding::Side(side));
        if has(set, p) != (side == 0) {
            counts.add(Finding::Difference);
        }
    }
    if set.count_ones() != u32::from(c) {
        counts.add(Finding::Difference);
    }
    if stages > 1 {
        counts.add(Finding::SeveralStages);
    }
    match check(arena, &bytes) {
        Ok(answer) if answer == c => {}
        Ok(_) => counts.add(Finding::Difference),
        Err(_) => counts.add(Finding::Refused),
    }
    Ok(())
}

/// Draws the next plant, opens the strip that stores it, and judges it.
fn next(rt: &HostRuntime, random: &mut Random, counts: &mut Counts) -> anyhow::Result<()> {
    let plant = draw(random);
    let strip = strip_of(rt.alloc(), &plant)?;
    let mut arena = OpenedStrip::empty();
    if open(&strip, &mut arena).is_err() {
        bail!("a drawn strip does not open");
    }
    judge(rt, counts, &plant, &arena)
}

/// Compares what solve says of drawn plants with what another algorithm does, the nested fixpoint, and what check answers.
fn main(rt: HostRuntime) -> anyhow::Result<()> {
    let mut random = Random { state: 1 };
    let mut counts = Counts {
        positions: 0,
        controllers: 0,
        traffics: 0,
        several_stages: 0,
        differences: 0,
        refused: 0,
    };
    for _ in 0..PLANTS {
        next(&rt, &mut random, &mut counts)?;
    }
    let Counts {
        positions,
        controllers,
        traffics,
        several_stages,
        differences,
        refused,
    } = counts;
    println!(rt; "plants {PLANTS}")?;
    println!(rt; "positions {positions}")?;
    println!(rt; "controller's {controllers}")?;
    println!(rt; "traffic's {traffics}")?;
    println!(rt; "several stages {several_stages}")?;
    println!(rt; "differences {differences}")?;
    println!(rt; "refused by check {refused}")?;
    Ok(())
}
