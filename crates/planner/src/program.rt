ghost use Rattle.std.specs.Prelude.{◌≡◌, ℕ, ◌<◌, ◌≤◌, length, IfOk, string_bytes, MatchResult};
ghost use Rattle.arena.specs.Certificate.{certificate_bytes};
ghost use Rattle.planner.specs.Answer.{RestUnread, Told, planned_text, program_text};
ghost use Rattle.planner.specs.Promise.{Promise};
ghost use Rattle.solver.specs.Solve.{work_numbers};
ghost use Rattle.strip.specs.Strip.{open_answer};

use crate::faults::PlanFault;
use arena::{Arena, certificate_bytes};
use report::{plan, refusal};
use solver::{solve, work_numbers};
use std::alloc::{AllocError, Global};
use strip::{OpenedStrip, open};

/// The plan of an arena, by two memories that are as long as it takes.
fn plan_in<A: Arena>(
    heap: Global,
    arena: &A,
    certificate: &mut [u8],
    work: &mut [u16],
) -> Result<String, AllocError>
    requires some { 0 < (A.meaning arena.now).size }
    requires few { (A.meaning arena.now).size ≤ 4096 }
    requires aimed { 0 < (A.meaning arena.now).goals }
    requires aims { (A.meaning arena.now).goals ≤ 8 }
    requires fits { length certificate.old ≡ certificate_bytes (A.meaning arena.now) }
    requires room { length work.old ≡ work_numbers (A.meaning arena.now) }
    ensures { IfOk result (λ s. string_bytes s ≡ planned_text (A.meaning arena.now)) }
{
    let (controlled, stages) = solve(arena, certificate, work).unwrap();
    plan(heap, arena, certificate, controlled, stages)
}

/// The plan of an arena of a size that solve takes.
fn planned<A: Arena>(heap: Global, arena: &A) -> Result<String, AllocError>
    requires some { 0 < (A.meaning arena.now).size }
    requires few { (A.meaning arena.now).size ≤ 4096 }
    requires aimed { 0 < (A.meaning arena.now).goals }
    requires aims { (A.meaning arena.now).goals ≤ 8 }
    ensures { IfOk result (λ s. string_bytes s ≡ planned_text (A.meaning arena.now)) }
{
    let mut certificate = vec![in heap; 0u8; certificate_bytes(arena)]?;
    let mut work = vec![in heap; 0u16; work_numbers(arena)]?;
    plan_in(heap, arena, certificate.as_mut_slice(), work.as_mut_slice())
}

/// The text of the plan of the plant that a strip stores.
pub fn describe(heap: Global, bytes: &[u8]) -> Result<String, PlanFault>
    ensures { MatchResult result (λ s. string_bytes s ≡ program_text bytes.now) (λ e. Told e (open_answer bytes.now)) }
{
    let mut strip = OpenedStrip::empty();
    open(bytes, &mut strip)?;
    Ok(planned(heap, &strip)?)
}

/// What the program prints for the bytes that it has read: the plan, or the refusal. Of an input that is longer than the
/// longest strip, its front up to one byte more decides.
#[tactic(auto, using(crate::proofs::Front::rest_unread, crate::proofs::Promised::promised))]
pub fn answer(heap: Global, bytes: &[u8]) -> Result<String, AllocError>
    ensures text { IfOk result (λ s. string_bytes s ≡ program_text bytes.now) }
    ensures rest { RestUnread bytes.now }
    ensures promise { Promise }
{
    match describe(heap, bytes) {
        Ok(text) => Ok(text),
        Err(PlanFault::Open(fault)) => refusal(heap, fault.into()),
        Err(PlanFault::Memory) => Err(AllocError),
    }
}
