ghost use Rattle.std.specs.Prelude.{◌≤◌};

/// Draws numbers, the same ones at each run.
#[derive(Clone, Copy, Debug)]
pub struct Random {
    pub state: u64,
}

impl Random {
    /// A number from 0 to `most`.
    pub(crate) fn up_to(&mut self, most: u16) -> u16
        ensures { result ≤ most }
    {
        self.state = self
            .state
            .wrapping_mul(6364136223846793005)
            .wrapping_add(1442695040888963407);
        ((self.state >> 33) % (u64::from(most) + 1)) as u16
    }
}
