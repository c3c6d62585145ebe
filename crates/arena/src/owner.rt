ghost use Rattle.std.specs.Prelude.{◌≡◌};
ghost use Rattle.arena.specs.Owners.{Names, owner_number};

/// The side that a position belongs to.
#[derive(Clone, Copy, Debug, PartialEq, Eq)]
pub enum Owner {
    Controller,
    Traffic,
}

/// A number that is no owner's.
#[derive(Clone, Copy, Debug, PartialEq, Eq)]
pub struct NoOwner(pub u16);

impl From<Owner> for u16 {
    ghost from_gives = { λ owner number. number ≡ owner_number owner };

    fn from(owner: Owner) -> u16 {
        match owner {
            Owner::Controller => 0,
            Owner::Traffic => 1,
        }
    }
}

impl TryFrom<u16> for Owner {
    type Error = NoOwner;

    ghost try_from_gives = { Names };

    fn try_from(number: u16) -> Result<Owner, NoOwner> {
        match number {
            0 => Ok(Owner::Controller),
            1 => Ok(Owner::Traffic),
            _ => Err(NoOwner(number)),
        }
    }
}
