use crate::sheets::put;
use arena::Owner;
use row::Row;
use sheet::Sheet;
use sheet_faults::{LoadFault, PutFault, WriteFault};
use std::test::Fail;
use strip::StripFault;

/// Draws row 1 of the sheet: the traffic's, marked for goal 1, with moves to 0 and 2.
fn draw(sheet: &mut Sheet) -> Result<(), PutFault> {
    let mut draft = Row::empty();
    let Ok(slip) = sheet.take(2, 1, &mut draft) else {
        return Err(PutFault::NotOut);
    };
    let _ = draft.assign(Owner::Traffic);
    let _ = draft.mark(1);
    let _ = draft.link(2);
    let _ = draft.link(0);
    put(sheet, slip, &draft)
}

#[test]
fn a_strip_is_read_back(rt: HostRuntime) -> Result<(), Fail> {
    let mut sheet = Sheet::new(rt.alloc())?;
    assert!(rt; sheet.shape(3, 2).is_ok());
    assert_eq!(rt; draw(&mut sheet), Ok(()));
    let mut bytes = [0xff; 130];
    assert_eq!(rt; sheet.write(&mut bytes), Ok(()));
    assert_eq!(rt; bytes[3], 3);
    assert_eq!(rt; bytes[46], 1);
    assert_eq!(rt; bytes[47], 2);
    assert_eq!(rt; bytes[49], 2);
    assert_eq!(rt; bytes[53], 2);
    assert_eq!(rt; bytes[54], 0);
    assert_eq!(rt; bytes[123], 3);
    assert_eq!(rt; bytes[124], 0xff);
    let mut other = Sheet::new(rt.alloc())?;
    assert_eq!(rt; other.load(&bytes[0..124]), Ok(()));
    let mut again = [0xff; 130];
    assert_eq!(rt; other.write(&mut again), Ok(()));
    assert_eq!(rt; again, bytes);
    Ok(())
}

#[test]
fn a_faulty_strip_is_refused_whole(rt: HostRuntime) -> Result<(), Fail> {
    let mut sheet = Sheet::new(rt.alloc())?;
    let mut bytes = [0; 48];
    assert_eq!(rt; sheet.write(&mut bytes[0..47]), Err(WriteFault::Short));
    assert_eq!(rt; bytes[0], 0);
    assert_eq!(rt; sheet.write(&mut bytes), Ok(()));
    assert_eq!(rt; sheet.load(&bytes), Ok(()));
    bytes[12] = 1;
    let fault = StripFault { place: 12 };
    assert_eq!(rt; sheet.load(&bytes), Err(LoadFault::Strip(fault)));
    assert_eq!(rt;
        sheet.load(&[]),
        Err(LoadFault::Strip(StripFault { place: 0 }))
    );
    Ok(())
}

#[test]
fn no_sheet_is_loaded_while_a_row_is_out(rt: HostRuntime) -> Result<(), Fail> {
    let mut sheet = Sheet::new(rt.alloc())?;
    let mut draft = Row::empty();
    let Ok(slip) = sheet.take(16, 0, &mut draft) else {
        return Err(Fail::new("seat 16 takes row 0"));
    };
    let loaded = sheet.load(&[]);
    let _ = sheet.let_go(slip);
    assert_eq!(rt; loaded, Err(LoadFault::RowOut(0)));
    Ok(())
}
