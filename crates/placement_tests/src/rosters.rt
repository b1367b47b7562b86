use order::select_first;
use placement::placing::Placement;
use placement::policies::Policy;
use placement::roster::{Roster, RosterFault};
use std::test::Fail;

#[test]
fn sizes_are_limited(rt: HostRuntime) {
    assert!(rt; Roster::first(0, 5).is_err());
    assert!(rt; Roster::first(6, 5).is_err());
    assert!(rt; Roster::first(1, 17).is_err());
    assert!(rt; Roster::first(16, 16).is_ok());
}

#[test]
fn members_join_and_leave(rt: HostRuntime) -> Result<(), Fail> {
    let roster = Roster::first(3, 5)?;
    assert_eq!(rt; roster.with(5).err(), Some(RosterFault::NotAStore));
    assert_eq!(rt; roster.with(2).err(), Some(RosterFault::AlreadyMember));
    assert_eq!(rt; roster.without(4).err(), Some(RosterFault::NotAMember));
    let shorter = roster.without(0)?;
    assert_eq!(rt; shorter.len(), 2);
    assert_eq!(rt; shorter.member(0), Some(1));
    assert_eq!(rt; shorter.member(1), Some(2));
    assert_eq!(rt; shorter.member(2), None);
    assert!(rt; !shorter.contains(0));
    let back = shorter.with(0)?;
    assert_eq!(rt; back.position(0), Some(2));
    assert_eq!(rt;
        Roster::first(1, 5)?.without(0).err(),
        Some(RosterFault::OnlyMember)
    );
    Ok(())
}

#[test]
fn a_full_roster_loses_its_last(rt: HostRuntime) -> Result<(), Fail> {
    let roster = Roster::first(16, 16)?.without(15)?;
    assert_eq!(rt; roster.len(), 15);
    assert_eq!(rt; roster.position(15), None);
    assert_eq!(rt; roster.with(15)?.member(15), Some(15));
    Ok(())
}

#[test]
fn the_first_keys_come_in_order(rt: HostRuntime) {
    let mut keys = [9u64, 4, 18446744073709551615, 0, 4];
    select_first(&mut keys, 3);
    assert_eq!(rt; keys[0], 0);
    assert_eq!(rt; keys[1], 4);
    assert_eq!(rt; keys[2], 4);
}

#[test]
fn only_the_last_leaves_under_jump(rt: HostRuntime) -> Result<(), Fail> {
    let roster = Roster::first(3, 3)?;
    assert!(rt; Policy::Jump.may_leave(&roster, 2));
    assert!(rt; !Policy::Jump.may_leave(&roster, 0));
    assert!(rt; Policy::Rendezvous.may_leave(&roster, 0));
    Ok(())
}
