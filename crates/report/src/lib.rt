#![tactic(auto)]

ghost use Rattle.std.specs.Prelude.{◌≡◌, ℕ, IfOk, string_bytes};
ghost use Rattle.arena.specs.Told.{named_by};
ghost use Rattle.report.specs.Plan.{plan_text};
ghost use Rattle.report.specs.Text.{refusal_text};

mod decisions;

use arena::{Arena, Certificate, Refusal};
use decisions::Decision;
use std::alloc::{AllocError, Global};

/// The text of a plan: the numbers of positions and goals, how many positions are the controller's and how many stages
/// there were, then a line for each position with what the certificate decides there.
pub fn plan<'a, A: Arena>(
    heap: Global,
    arena: &'a A,
    bytes: &'a [u8],
    controlled: u16,
    stages: u16,
) -> Result<String, AllocError>
    ensures { IfOk result (λ s. string_bytes s ≡ plan_text (A.meaning arena.now) bytes.now controlled stages) }
{
    let n = arena.positions();
    let k = arena.goals();
    let certificate = Certificate { arena, bytes };
    let mut out = format!(in heap; "plan {n} {k} {controlled} {stages}\n")?;
    for position in 0..n {
        let decision = Decision {
            certificate: &certificate,
            position,
        };
        write!(out, "{decision}")?;
    }
    Ok(out)
}

/// The line that tells a refusal: its number and what it names.
pub fn refusal(heap: Global, refusal: Refusal) -> Result<String, AllocError>
    ensures { IfOk result (λ s. string_bytes s ≡ refusal_text refusal.number (named_by refusal.named)) }
{
    format!(in heap; "{refusal}\n")
}
