//! Room for a fill with ample memory.

use dl_fill::FillRoom;
use dl_prop::PropGates;

#[test]
fn room_grows_again(rt: HostRuntime) {
    let mut room = FillRoom::make(rt.alloc(), &PropGates);
    assert!(rt; room.reserve(3, 5).is_ok());
    assert!(rt; room.reserve(40, 2).is_ok());
    drop(room);
}
