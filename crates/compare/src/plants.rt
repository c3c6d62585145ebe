ghost use Rattle.std.specs.Prelude.{◌<◌};

use crate::random::Random;

/// Sets of positions are numbers of sixteen bits, the bit of position p being worth 2 to the p.
pub(crate) fn bit(p: u16) -> u16 {
    1 << (p % 16)
}

/// Whether the set has position `p`.
pub(crate) fn has(set: u16, p: u16) -> bool {
    set & bit(p) != 0
}

/// A drawn plant: up to twelve positions, up to three goals, and all the rest as sets of positions.
#[derive(Clone, Copy, Debug)]
pub struct Plant {
    pub n: u16,
    pub k: u16,
    /// The positions of the traffic.
    pub traffic: u16,
    /// For each goal the positions that are marked for it; none for the goals that it has not.
    pub marked: [u16; 3],
    /// For each position those that it has a move to; none for the positions that it has not.
    pub moves: [u16; 12],
}

/// A set of so many drawn positions, some of which may be the same.
fn draw_set(random: &mut Random, n: u16, size: u16) -> u16
    requires { 0 < n }
{
    (0..size).fold(0, |set, _| set | bit(random.up_to(n - 1)))
}

/// Draws a plant: each position has one to four moves, and about a third of the positions at most are marked for a goal.
pub(crate) fn draw(random: &mut Random) -> Plant {
    let n = random.up_to(11) + 1;
    let k = random.up_to(2) + 1;
    let mut marked = [0; 3];
    for set in marked.iter_mut().take(usize::from(k)) {
        let size = random.up_to(n / 3) + 1;
        *set = draw_set(random, n, size);
    }
    let mut moves = [0; 12];
    for set in moves.iter_mut().take(usize::from(n)) {
        let size = random.up_to(3) + 1;
        *set = draw_set(random, n, size);
    }
    let size = random.up_to(n);
    let traffic = draw_set(random, n, size);
    Plant {
        n,
        k,
        traffic,
        marked,
        moves,
    }
}
