ghost use Rattle.std.specs.Prelude.{◌≡◌, ℕ, ◌*◌, ◌≤◌, ◌++◌, length, drop};
ghost use Rattle.arena.specs.Certificate.{certificate_bytes};
ghost use Rattle.solver.specs.Certificate.{certificate};
ghost use Rattle.solver.specs.Solution.{controlled, stages};
ghost use Rattle.solver.specs.Solve.{work_numbers};

use super::settled::Settled;
use super::stage::run_stages;
use super::work_numbers;
use arena::{Arena, certificate_bytes};

// The whole work, in memories of the lengths that it needs: how many positions are the controller's, and how many stages
// there are.
fn plan_exactly<A: Arena>(a: &A, out: &mut [u8], work: &mut [u16]) -> (u16, u16)
    requires small { (A.meaning a.now).size ≤ 4096 }
    requires few { (A.meaning a.now).goals ≤ 8 }
    requires out { length out.old ≡ certificate_bytes (A.meaning a.now) }
    requires work { length work.old ≡ work_numbers (A.meaning a.now) }
    ensures answer { result ≡ (controlled (A.meaning a.now), stages (A.meaning a.now)) }
    ensures bytes { out.new ≡ certificate (A.meaning a.now) }
{
    let n = usize::from(a.positions());
    let (taken, rest) = work.split_at_mut(n);
    let (goals, rest) = rest.split_at_mut(n);
    let (approaches, rest) = rest.split_at_mut(n);
    let (near, rest) = rest.split_at_mut(n);
    let (steps, rest) = rest.split_at_mut(n);
    let (choices, ranks) = rest.split_at_mut(n);
    let stages = run_stages(a, taken, goals, approaches, near, ranks);
    let settled = Settled {
        arena: a,
        taken,
        goals,
        approaches,
        ranks,
    };
    settled.write(steps, choices, out);
    (settled.count(), stages)
}

// The whole work, in the front of memories that are long enough.
pub(crate) fn plan<A: Arena>(a: &A, out: &mut [u8], work: &mut [u16]) -> (u16, u16)
    requires small { (A.meaning a.now).size ≤ 4096 }
    requires few { (A.meaning a.now).goals ≤ 8 }
    requires out { certificate_bytes (A.meaning a.now) ≤ length out.old }
    requires work { work_numbers (A.meaning a.now) ≤ length work.old }
    ensures answer { result ≡ (controlled (A.meaning a.now), stages (A.meaning a.now)) }
    ensures bytes { out.new ≡ certificate (A.meaning a.now) ++ drop (certificate_bytes (A.meaning a.now)) out.old }
    ensures beyond { drop (work_numbers (A.meaning a.now)) work.new ≡ drop (work_numbers (A.meaning a.now)) work.old }
{
    let bytes = certificate_bytes(a);
    let numbers = work_numbers(a);
    plan_exactly(a, &mut out[..bytes], &mut work[..numbers])
}
