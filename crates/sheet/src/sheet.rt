use crate::slot::Slot;
use std::marker::Model;

mod close;
mod edits;
mod methods;
mod strips;

/// How many rows a sheet has memory for.
pub(crate) const ROWS: usize = 512;

/// A sheet: the rows of a plant while seats draw it, with the seat that each row is out to. It has memory for 512 rows
/// from the start and never asks for more.
#[derive(Drop)]
pub struct Sheet {
    goals: u16,
    slots: Vec<Slot>,
}

impl Model for Sheet {
    ghost use Rattle.sheet.specs.Sheets as sheets;

    ghost Value = { sheets.Sheet };

    ghost use Rattle.sheet.specs.SheetModel.{sheet_of, Held};

    ghost view = { sheet_of };

    ghost invariant = { Held };
}
