//! A table that is filled, left and filled again, held tags, and watched ones.
use mtp_codes::Name;
use pol_table::{DockFault, HoldFault, LeaveFault, Table};
use std::process::Abort;
use std::test::Fail;

// The name of these bytes.
fn name(rt: &impl Abort, bytes: &[u8]) -> Name {
    Name::of_bytes(bytes).expect(rt, "a name")
}

// The tag with this number, of two digits.
fn tag(rt: &impl Abort, number: u8) -> Name {
    name(rt, &[b'T', b'0' + number / 10 % 10, b'0' + number % 10])
}

#[test]
fn a_left_place_is_used_again_and_all_tags_are_found(rt: HostRuntime) -> Result<(), Fail> {
    let mut table = Table::new(rt.alloc());
    for number in 0..64u8 {
        assert!(rt; table.dock(tag(&rt, number), number).is_ok());
    }
    assert_eq!(rt; table.len(), 64);
    assert_eq!(rt;
        table.dock(tag(&rt, 64), 64),
        Err((64, DockFault::PlantFull))
    );
    assert_eq!(rt; table.dock(tag(&rt, 7), 64), Err((64, DockFault::TagTaken)));
    assert_eq!(rt; table.leave(tag(&rt, 7)), Ok(7));
    assert_eq!(rt; table.leave(tag(&rt, 7)), Err(LeaveFault::NoModule));
    assert!(rt; table.dock(tag(&rt, 64), 64).is_ok());
    for number in 0..65u8 {
        let docked = if number == 7 { None } else { Some(number) };
        assert_eq!(rt; table.get(tag(&rt, number)).copied(), docked);
    }
    Ok(())
}

#[test]
fn the_docked_tags_are_listed_in_byte_order(rt: HostRuntime) -> Result<(), Fail> {
    let mut table = Table::new(rt.alloc());
    for number in [12u8, 7, 30, 1] {
        assert!(rt; table.dock(tag(&rt, number), number).is_ok());
    }
    let tags = table.tags(rt.alloc())?;
    let wanted = [tag(&rt, 1), tag(&rt, 7), tag(&rt, 12), tag(&rt, 30)];
    assert_eq!(rt; &tags[..], &wanted[..]);
    Ok(())
}

#[test]
fn a_batch_holds_all_of_its_tags_or_none(rt: HostRuntime) -> Result<(), Fail> {
    let (first, second, third) = (tag(&rt, 1), tag(&rt, 2), tag(&rt, 3));
    let (mixing, dosing) = (name(&rt, b"mixing"), name(&rt, b"dosing"));
    let mut table = Table::new(rt.alloc());
    assert!(rt; table.dock(first, 10u8).is_ok());
    assert!(rt; table.dock(second, 20).is_ok());
    assert_eq!(rt; table.hold_all(&[second], dosing), Ok(()));
    let busy = HoldFault::Busy {
        tag: second,
        batch: dosing,
    };
    assert_eq!(rt; table.hold_all(&[first, second], mixing), Err(busy));
    assert_eq!(rt;
        table.hold_all(&[second, third], mixing),
        Err(HoldFault::NoModule(third))
    );
    assert_eq!(rt; table.holder(first), None);
    assert_eq!(rt; table.leave(second), Err(LeaveFault::Held(dosing)));
    table.release(mixing);
    assert_eq!(rt; table.holder(second), Some(dosing));
    table.release(dosing);
    assert_eq!(rt; table.hold_all(&[first, second], mixing), Ok(()));
    if let Some(part) = table.get_mut(second) {
        *part = 21;
    }
    table.release(mixing);
    assert_eq!(rt; table.leave(second), Ok(21));
    Ok(())
}

#[test]
fn a_watched_tag_stays_until_its_last_watcher_is_released(rt: HostRuntime) -> Result<(), Fail> {
    let (first, second) = (tag(&rt, 1), tag(&rt, 2));
    let (filling, mixing, dosing) = (
        name(&rt, b"filling"),
        name(&rt, b"mixing"),
        name(&rt, b"dosing"),
    );
    let mut table = Table::new(rt.alloc());
    assert!(rt; table.dock(first, 10u8).is_ok());
    assert!(rt; table.dock(second, 20).is_ok());
    assert!(rt; table.watch_all(&[first, second], mixing).is_ok());
    assert!(rt; table.watch_all(&[first], dosing).is_ok());
    assert_eq!(rt; table.hold_all(&[first], filling), Ok(()));
    assert_eq!(rt; table.watcher(first, 0), Some(mixing));
    assert_eq!(rt; table.watcher(first, 1), Some(dosing));
    assert_eq!(rt; table.watcher(first, 2), None);
    assert_eq!(rt; table.watcher(second, 0), Some(mixing));
    assert_eq!(rt; table.watcher(second, 1), None);
    assert_eq!(rt; table.leave(first), Err(LeaveFault::Held(filling)));
    table.release(filling);
    assert_eq!(rt; table.leave(first), Err(LeaveFault::Watched(mixing)));
    table.release(mixing);
    assert_eq!(rt; table.leave(first), Err(LeaveFault::Watched(dosing)));
    assert_eq!(rt; table.leave(second), Ok(20));
    table.release(dosing);
    assert_eq!(rt; table.watcher(first, 0), None);
    assert_eq!(rt; table.leave(first), Ok(10));
    Ok(())
}
