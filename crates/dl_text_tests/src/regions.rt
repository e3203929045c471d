//! A region that is filled, cleared and filled again.

use dl_rows::Region;

#[test]
fn members_come_once_and_go(rt: HostRuntime) {
    let mut region = Region::make(rt.alloc(), 70).expect(&rt, "room");
    region.put(69);
    region.put(5);
    region.put(69);
    assert!(rt; region.len() == 2);
    assert!(rt; region.at(1) == Some(5));
    assert!(rt; region.holds(69));
    region.clear();
    assert!(rt; !region.holds(69));
    region.put(64);
    assert!(rt; region.at(0) == Some(64));
    drop(region);
}
