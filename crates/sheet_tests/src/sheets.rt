use arena::Arena;
use peek::peek;
use row::Row;
use sheet::{ClosedSheet, Sheet, Slip};
use sheet_faults::{CloseFault, LetGoFault, PutFault, ShapeFault, TakeFault};
use std::process::Abort;
use std::test::Fail;

/// A draft with one move.
fn one_move(q: u16) -> Row {
    let mut draft = Row::empty();
    let _ = draft.link(q);
    draft
}

/// Puts the draft with a slip; where that is refused, tells why and lets the row go.
pub(crate) fn put(sheet: &mut Sheet, slip: Slip, draft: &Row) -> Result<(), PutFault> {
    match sheet.put(slip, draft) {
        Ok(()) => Ok(()),
        Err((fault, slip)) => {
            let _ = sheet.let_go(slip);
            Err(fault)
        }
    }
}

/// Draws a row with one move.
fn draw(sheet: &mut Sheet, p: u16, q: u16) -> Result<(), PutFault> {
    let mut draft = Row::empty();
    let Ok(slip) = sheet.take(1, p, &mut draft) else {
        return Err(PutFault::NotOut);
    };
    let _ = draft.link(q);
    put(sheet, slip, &draft)
}

/// Whether the sheet closes.
fn closes(sheet: &Sheet) -> Result<(), CloseFault> {
    let mut closed = ClosedSheet::empty();
    sheet.close(&mut closed)
}

/// The second seat's part in the plant of two seats, while the first has row 0: its answers, and those of the first.
fn second_seat(rt: &impl Abort, sheet: &mut Sheet, slip: Slip) -> Result<(), Fail> {
    let mut draft = Row::empty();
    let same = peek(sheet, 2, 0, &mut draft);
    let Ok(other) = sheet.take(2, 1, &mut draft) else {
        let _ = sheet.let_go(slip);
        return Err(Fail::new("the second seat takes row 1"));
    };
    let out = sheet.count();
    let early = closes(sheet);
    let Err((fault, slip)) = sheet.put(slip, &one_move(2)) else {
        let _ = sheet.let_go(other);
        return Err(Fail::new("a move to 2 is put"));
    };
    let then = put(sheet, slip, &one_move(1));
    let gone = sheet.let_go(other);
    assert_eq!(rt; same, Err(TakeFault::RowOut));
    assert_eq!(rt; out, 2);
    assert_eq!(rt; early, Err(CloseFault::RowOut(0)));
    assert_eq!(rt; fault, PutFault::NoSuchMove);
    assert_eq!(rt; then, Ok(()));
    assert_eq!(rt; gone, Ok(()));
    Ok(())
}

#[test]
fn the_plant_of_two_seats(rt: HostRuntime) -> Result<(), Fail> {
    let mut sheet = Sheet::new(rt.alloc())?;
    assert_eq!(rt; sheet.shape(2, 1), Ok(()));
    let mut draft = Row::empty();
    let Ok(slip) = sheet.take(1, 0, &mut draft) else {
        return Err(Fail::new("the first seat takes row 0"));
    };
    second_seat(&rt, &mut sheet, slip)?;
    assert_eq!(rt; sheet.count(), 0);
    assert_eq!(rt; closes(&sheet), Err(CloseFault::NoMoves(1)));
    Ok(())
}

#[test]
fn seats_are_1_to_16(rt: HostRuntime) -> Result<(), Fail> {
    let mut sheet = Sheet::new(rt.alloc())?;
    let mut draft = one_move(7);
    assert_eq!(rt;
        peek(&mut sheet, 0, 0, &mut draft),
        Err(TakeFault::NoSuchSeat)
    );
    assert_eq!(rt;
        peek(&mut sheet, 17, 0, &mut draft),
        Err(TakeFault::NoSuchSeat)
    );
    assert_eq!(rt;
        peek(&mut sheet, 16, 1, &mut draft),
        Err(TakeFault::NoSuchPosition)
    );
    assert_eq!(rt; draft.moves().len(), 1);
    assert_eq!(rt; peek(&mut sheet, 1, 0, &mut draft), Ok(()));
    assert_eq!(rt; peek(&mut sheet, 16, 0, &mut draft), Ok(()));
    assert_eq!(rt; draft.moves().len(), 0);
    assert_eq!(rt; sheet.count(), 0);
    Ok(())
}

#[test]
fn positions_to_512_and_goals_to_8(rt: HostRuntime) -> Result<(), Fail> {
    let mut sheet = Sheet::new(rt.alloc())?;
    let mut draft = Row::empty();
    assert_eq!(rt; sheet.shape(512, 8), Ok(()));
    assert_eq!(rt; peek(&mut sheet, 1, 511, &mut draft), Ok(()));
    assert_eq!(rt; sheet.shape(513, 9), Err(ShapeFault::Positions));
    assert_eq!(rt; sheet.shape(0, 1), Err(ShapeFault::Positions));
    assert_eq!(rt; sheet.shape(512, 9), Err(ShapeFault::Goals));
    assert_eq!(rt; sheet.shape(1, 0), Err(ShapeFault::Goals));
    assert_eq!(rt; peek(&mut sheet, 1, 511, &mut draft), Ok(()));
    assert_eq!(rt;
        peek(&mut sheet, 1, 512, &mut draft),
        Err(TakeFault::NoSuchPosition)
    );
    Ok(())
}

/// Tries to shape the sheet and to let a row go with a slip of another, both while row 0 is out.
fn tried(rt: &impl Abort, sheet: &mut Sheet, slip: Slip, foreign: Slip) {
    let shaped = sheet.shape(1, 1);
    let refused = sheet.let_go(foreign);
    let out = sheet.count();
    let gone = sheet.let_go(slip);
    assert_eq!(rt; shaped, Err(ShapeFault::RowOut(0)));
    assert_eq!(rt; refused, Err(LetGoFault::NotOut));
    assert_eq!(rt; out, 1);
    assert_eq!(rt; gone, Ok(()));
}

#[test]
fn a_slip_is_judged_by_seat_and_position(rt: HostRuntime) -> Result<(), Fail> {
    let mut here = Sheet::new(rt.alloc())?;
    let mut there = Sheet::new(rt.alloc())?;
    let mut draft = Row::empty();
    let Ok(slip) = here.take(3, 0, &mut draft) else {
        return Err(Fail::new("seat 3 takes row 0 here"));
    };
    let Ok(foreign) = there.take(4, 0, &mut draft) else {
        let _ = here.let_go(slip);
        return Err(Fail::new("seat 4 takes row 0 there"));
    };
    tried(&rt, &mut here, slip, foreign);
    assert_eq!(rt; here.count(), 0);
    assert_eq!(rt; there.count(), 1);
    Ok(())
}

#[test]
fn a_slip_serves_on_another_sheet(rt: HostRuntime) -> Result<(), Fail> {
    let mut here = Sheet::new(rt.alloc())?;
    let mut there = Sheet::new(rt.alloc())?;
    let mut draft = Row::empty();
    let Ok(slip) = here.take(3, 0, &mut draft) else {
        return Err(Fail::new("seat 3 takes row 0 here"));
    };
    let Ok(other) = there.take(3, 0, &mut draft) else {
        let _ = here.let_go(slip);
        return Err(Fail::new("seat 3 takes row 0 there"));
    };
    let gone = there.let_go(slip);
    let back = here.let_go(other);
    assert_eq!(rt; gone, Ok(()));
    assert_eq!(rt; back, Ok(()));
    assert_eq!(rt; here.count(), 0);
    assert_eq!(rt; there.count(), 0);
    Ok(())
}

#[test]
fn a_mark_is_for_a_goal_of_the_sheet(rt: HostRuntime) -> Result<(), Fail> {
    let mut sheet = Sheet::new(rt.alloc())?;
    let mut draft = Row::empty();
    let Ok(slip) = sheet.take(1, 0, &mut draft) else {
        return Err(Fail::new("seat 1 takes row 0"));
    };
    let _ = draft.mark(1);
    let answer = put(&mut sheet, slip, &draft);
    assert_eq!(rt; answer, Err(PutFault::NoSuchGoal));
    assert_eq!(rt; sheet.count(), 0);
    Ok(())
}

/// Asks the arena of two rows, each with a move to 1.
fn asked<A: Arena>(rt: &impl Abort, arena: &A) {
    assert_eq!(rt; arena.positions(), 2);
    assert_eq!(rt; arena.goals(), 3);
    assert_eq!(rt; arena.owner(1), Some(0));
    assert_eq!(rt; arena.owner(2), None);
    assert_eq!(rt; arena.marked(0, 2), Some(false));
    assert_eq!(rt; arena.marked(0, 3), None);
    assert_eq!(rt; arena.move_count(0), Some(1));
    assert_eq!(rt; arena.nth_move(0, 0), Some(1));
    assert_eq!(rt; arena.nth_move(0, 1), None);
}

/// Closes the sheet and asks it.
fn closed_and_asked(rt: &impl Abort, sheet: &Sheet) {
    let mut closed = ClosedSheet::empty();
    let _ = sheet.close(&mut closed);
    asked(rt, &closed);
}

#[test]
fn a_closed_sheet_answers_as_its_rows(rt: HostRuntime) -> Result<(), Fail> {
    let mut sheet = Sheet::new(rt.alloc())?;
    assert_eq!(rt; sheet.shape(2, 3), Ok(()));
    assert_eq!(rt; draw(&mut sheet, 0, 1), Ok(()));
    assert_eq!(rt; draw(&mut sheet, 1, 1), Ok(()));
    closed_and_asked(&rt, &sheet);
    assert_eq!(rt; sheet.shape(1, 1), Ok(()));
    Ok(())
}
