ghost use Rattle.arena.specs.Told.{Same};
ghost use Rattle.row.specs.Refusals.{link_refusal, mark_refusal};

use arena::Refusal;

/// Why a draft does not get a move.
#[derive(Clone, Copy, Debug, PartialEq, Eq)]
pub enum LinkFault {
    /// It would be a seventeenth.
    TooMany,
}

/// Why a draft neither gets nor loses a mark.
#[derive(Clone, Copy, Debug, PartialEq, Eq)]
pub enum MarkFault {
    /// No row can be marked for the goal: it is above 7.
    NoSuchGoal,
}

impl From<LinkFault> for Refusal {
    ghost from_gives = { λ e r. Same r (link_refusal e) };

    fn from(e: LinkFault) -> Refusal {
        match e {
            LinkFault::TooMany => Refusal::bare(12),
        }
    }
}

impl From<MarkFault> for Refusal {
    ghost from_gives = { λ e r. Same r (mark_refusal e) };

    fn from(e: MarkFault) -> Refusal {
        match e {
            MarkFault::NoSuchGoal => Refusal::bare(2),
        }
    }
}
