use arena::Owner;
use row::{LinkFault, MarkFault, Row};

/// A draft with moves to the first so many even positions.
fn linked(count: u16) -> Row {
    let mut draft = Row::empty();
    for q in (0..).step_by(2).take(count as usize) {
        let _ = draft.link(q);
    }
    draft
}

#[test]
fn a_sixteenth_move_and_no_seventeenth(rt: HostRuntime) {
    let mut draft = linked(15);
    assert_eq!(rt; draft.link(30), Ok(true));
    assert_eq!(rt; draft.moves().len(), 16);
    assert_eq!(rt; draft.link(31), Err(LinkFault::TooMany));
    assert_eq!(rt; draft.link(30), Ok(false));
    assert_eq!(rt; draft.moves().len(), 16);
}

#[test]
fn a_move_goes_to_its_place(rt: HostRuntime) {
    let mut draft = linked(3);
    assert_eq!(rt; draft.link(3), Ok(true));
    assert_eq!(rt; draft.link(65535), Ok(true));
    assert_eq!(rt; draft.moves(), [0, 2, 3, 4, 65535].as_slice());
}

#[test]
fn a_move_is_taken_away_once(rt: HostRuntime) {
    let mut draft = linked(3);
    assert!(rt; draft.unlink(2));
    assert!(rt; !draft.unlink(2));
    assert_eq!(rt; draft.moves(), [0, 4].as_slice());
}

#[test]
fn goals_to_7_and_no_further(rt: HostRuntime) {
    let mut draft = Row::empty();
    assert_eq!(rt; draft.mark(7), Ok(true));
    assert_eq!(rt; draft.mark(7), Ok(false));
    assert_eq!(rt; draft.mark(8), Err(MarkFault::NoSuchGoal));
    assert!(rt; draft.is_marked(7));
    assert!(rt; !draft.is_marked(8));
    assert_eq!(rt; draft.unmark(8), Err(MarkFault::NoSuchGoal));
    assert_eq!(rt; draft.unmark(0), Ok(false));
    assert_eq!(rt; draft.unmark(7), Ok(true));
    assert!(rt; !draft.is_marked(7));
}

#[test]
fn an_owner_is_assigned_once(rt: HostRuntime) {
    let mut draft = Row::empty();
    assert!(rt; !draft.assign(Owner::Controller));
    assert!(rt; draft.assign(Owner::Traffic));
    assert!(rt; !draft.assign(Owner::Traffic));
    assert_eq!(rt; u16::from(draft.owner()), 1);
}
