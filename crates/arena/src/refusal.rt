ghost use Rattle.arena.specs.declared.refusal.Named.TheVariants.{Nothing, Place};
ghost use Rattle.std.specs.Prelude.{◌≡◌, Some};
ghost use Rattle.arena.specs.Told.{refusal_line};

use std::fmt;

/// What a refusal names: nothing, a position or a place, or a clause of the certificate's and the position where it fails.
#[derive(Clone, Copy, Debug, PartialEq, Eq)]
pub enum Named {
    Nothing,
    Place(usize),
    Clause { clause: u8, position: u16 },
}

/// A refusal as it is told: its number in the table of refusals, and what it names. Every call's fault turns into one, so
/// that `?` hands it on.
#[derive(Clone, Copy, Debug, PartialEq, Eq)]
pub struct Refusal {
    pub number: u8,
    pub named: Named,
}

impl Refusal {
    /// A refusal that names nothing.
    pub fn bare(number: u8) -> Refusal
        ensures { result ≡ record { number = number; named = Nothing } }
    {
        Refusal {
            number,
            named: Named::Nothing,
        }
    }

    /// A refusal that names a position or a place.
    pub fn naming(number: u8, place: usize) -> Refusal
        ensures { result ≡ record { number = number; named = Place place } }
    {
        Refusal {
            number,
            named: Named::Place(place),
        }
    }
}

impl fmt::Display for Refusal {
    ghost output = { λ r. Some (refusal_line r) };

    fn fmt<W: fmt::Write>(&self, f: &mut fmt::Formatter<W>) -> fmt::Result {
        let number = self.number;
        match self.named {
            Named::Nothing => write!(f, "refused {number}"),
            Named::Place(place) => write!(f, "refused {number} {place}"),
            Named::Clause { clause, position } => {
                write!(f, "refused {number} {clause} {position}")
            }
        }
    }
}
