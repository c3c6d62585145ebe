use crate::plants::{Plant, has};
use std::alloc::{AllocError, Global};

/// Puts a number of two bytes, the high byte first.
fn put(bytes: &mut Vec<u8>, x: u16) -> Result<(), AllocError> {
    bytes.extend_from_slice(&x.to_be_bytes())
}

/// Puts the moves of a row, rising, and a zero for each of the sixteen that is not used.
fn put_moves(bytes: &mut Vec<u8>, moves: u16) -> Result<(), AllocError> {
    for q in (0..16).filter(|q| has(moves, *q)) {
        put(bytes, q)?;
    }
    for _ in moves.count_ones()..16 {
        put(bytes, 0)?;
    }
    Ok(())
}

/// The marks of position `p`, that of goal g being worth 2 to the g.
fn marks(plant: &Plant, p: u16) -> u8 {
    let goals = plant.marked.iter().rev();
    goals.fold(0, |marks, set| (marks << 1) | u8::from(has(*set, p)))
}

/// The strip that stores the plant.
pub(crate) fn strip_of(heap: Global, plant: &Plant) -> Result<Vec<u8>, AllocError> {
    let mut bytes = Vec::new(heap);
    put(&mut bytes, 0x4748)?;
    put(&mut bytes, plant.n)?;
    put(&mut bytes, plant.k)?;
    for (p, moves) in (0..plant.n).zip(&plant.moves) {
        put(&mut bytes, 0x4750)?;
        bytes.push(u8::from(has(plant.traffic, p)))?;
        bytes.push(marks(plant, p))?;
        put(&mut bytes, moves.count_ones() as u16)?;
        put_moves(&mut bytes, *moves)?;
    }
    put(&mut bytes, 0x4745)?;
    put(&mut bytes, plant.n)?;
    Ok(bytes)
}
