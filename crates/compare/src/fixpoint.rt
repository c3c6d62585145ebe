use crate::plants::{Plant, bit, has};

/// Whether the controller can force that the next position after `p`, which has these moves, is of the set.
fn can_force(plant: &Plant, p: u16, moves: u16, set: u16) -> bool {
    if has(plant.traffic, p) {
        moves & !set == 0
    } else {
        moves & set != 0
    }
}

/// The positions from which the controller can force one step into the set.
fn forced(plant: &Plant, set: u16) -> u16 {
    (0..plant.n)
        .zip(&plant.moves)
        .filter(|(p, moves)| can_force(plant, *p, **moves, set))
        .fold(0, |positions, (p, _)| positions | bit(p))
}

/// The positions from which the controller can force a visit of a marked one, and from there one step into the set: the least
/// fixpoint, which is reached in as many rounds as there are positions.
fn reached(plant: &Plant, marked: u16, set: u16) -> u16 {
    let first = marked & forced(plant, set);
    (0..plant.n).fold(0, |positions, _| first | forced(plant, positions))
}

/// The positions of the set from which each goal can be reached.
fn narrowed(plant: &Plant, set: u16) -> u16 {
    let goals = plant.marked.iter().take(usize::from(plant.k));
    goals.fold(
        set,
        |positions, marked| positions & reached(plant, *marked, set),
    )
}

/// The positions from which the controller can visit every goal again and again: the greatest fixpoint, which is reached in
/// one round more than there are positions.
pub(crate) fn winning(plant: &Plant) -> u16 {
    (0..=plant.n).fold(0xffff, |positions, _| narrowed(plant, positions))
}
