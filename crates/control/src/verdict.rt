ghost use Rattle.control.specs.declared.verdict.CheckFault.TheVariants.{Size};
ghost use Rattle.std.specs.Prelude.{◌≡◌, ℕ, ◌<◌, Ok, count_by};
ghost use Rattle.arena.specs.Refusals.{accepted};
ghost use Rattle.arena.specs.Sets.{upto};
ghost use Rattle.arena.specs.Told.{Same};
ghost use Rattle.control.specs.Accept.{checked, end_right, fit, given, head_right, ours, walk};
ghost use Rattle.control.specs.Answers.{check_refusal, verdict};
ghost use Rattle.control.specs.Promise.{Promise};

use super::clauses::Clause;
use super::record::Record;
use arena::{
    Arena, Certificate, Named, Refusal, SizeFault, certificate_bytes, is_marked_by, number_at,
    record_start, sized,
};

/// Why check turns a certificate down.
#[derive(Clone, Copy, Debug, PartialEq, Eq)]
pub enum CheckFault {
    /// The arena is too small or too large.
    Size(SizeFault),
    /// The bytes do not have the length of a certificate of the arena.
    Length,
    /// A clause fails at a position.
    Clause { clause: Clause, position: u16 },
}

impl From<SizeFault> for CheckFault {
    ghost from_gives = { λ e r. r ≡ Size e };

    fn from(size: SizeFault) -> CheckFault {
        CheckFault::Size(size)
    }
}

impl From<CheckFault> for Refusal {
    ghost from_gives = { λ e r. Same r (check_refusal e) };

    fn from(e: CheckFault) -> Refusal {
        match e {
            CheckFault::Size(e) => e.into(),
            CheckFault::Length => Refusal::bare(3),
            CheckFault::Clause { clause, position } => Refusal {
                number: 14,
                named: Named::Clause {
                    clause: clause.into(),
                    position,
                },
            },
        }
    }
}

/// Whether the bytes have the length of a certificate of the arena.
pub(crate) fn fits<A: Arena>(c: &Certificate<A>) -> bool
    ensures { result ≡ fit (A.meaning c.now.arena.now) c.now.bytes.now }
{
    c.bytes.len() == certificate_bytes(c.arena)
}

/// Clause 1: the head is right for the arena.
fn is_head_right<A: Arena>(c: &Certificate<A>) -> bool
    ensures { result ≡ head_right (A.meaning c.now.arena.now) c.now.bytes.now }
{
    is_marked_by(c.bytes, 0, [0x43, 0x48])
        && number_at(c.bytes, 2) == c.arena.positions()
        && number_at(c.bytes, 4) == c.arena.goals()
}

/// Clause 2: the end is right.
fn is_end_right<A: Arena>(c: &Certificate<A>) -> bool
    ensures { result ≡ end_right (A.meaning c.now.arena.now) c.now.bytes.now }
{
    let n = c.arena.positions();
    let end = record_start(c.arena, n);
    is_marked_by(c.bytes, end, [0x43, 0x45]) && number_at(c.bytes, end + 2) == n
}

/// The number of records with side 0.
fn count_given<A: Arena>(c: &Certificate<A>) -> u16
    ensures { result ≡ count_by (ours (A.meaning c.now.arena.now) c.now.bytes.now) (upto (A.meaning c.now.arena.now).size) }
{
    (0..c.arena.positions())
        .filter(|p| c.side_of(*p) == 0)
        .count() as u16
}

/// The clauses from the third on, position by position.
fn walk_records<A: Arena>(c: &Certificate<A>) -> Result<u16, CheckFault>
    ensures { verdict result ≡ walk (A.meaning c.now.arena.now) c.now.bytes.now (upto (A.meaning c.now.arena.now).size) (accepted (given (A.meaning c.now.arena.now) c.now.bytes.now)) }
{
    for position in 0..c.arena.positions() {
        let record = Record {
            certificate: &*c,
            position,
        };
        if let Some(clause) = record.first_failing() {
            return Err(CheckFault::Clause { clause, position });
        }
    }
    Ok(count_given(c))
}

/// What check answers.
fn judge<A: Arena>(c: &Certificate<A>) -> Result<u16, CheckFault>
    ensures { verdict result ≡ checked (A.meaning c.now.arena.now) c.now.bytes.now }
{
    sized(c.arena)?;
    if !fits(c) {
        return Err(CheckFault::Length);
    }
    if !is_head_right(c) {
        return Err(CheckFault::Clause {
            clause: Clause::Head,
            position: 0,
        });
    }
    if !is_end_right(c) {
        return Err(CheckFault::Clause {
            clause: Clause::End,
            position: 0,
        });
    }
    walk_records(c)
}

/// Whether the bytes are a certificate of the arena; answers the number of positions that it gives to the controller.
pub fn check<A: Arena>(arena: &A, certificate: &[u8]) -> Result<u16, CheckFault>
    ensures answer { verdict result ≡ checked (A.meaning arena.now) certificate.now }
    ensures promise { (c : ℕ) → result ≡ Ok c → Promise (A.meaning arena.now) certificate.now }
{
    judge(&Certificate {
        arena,
        bytes: certificate,
    })
}
