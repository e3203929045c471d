//! Worked orders.

ghost use Rattle.dl_sup.specs.Links.{IsOrder};

use dl_sup::{Link, LoadStop, Order, SupStop, Track, extend_order, is_order};
use std::alloc::Global;
use std::process::Abort;

/// The cycle that a pair would close.
fn cycle_of(rt: &impl Abort, added: Result<(), SupStop>) -> Track {
    match added {
        Err(SupStop::Cycle(track)) => track,
        _ => panic!(rt; "no cycle"),
    }
}

/// The cycle that one of several pairs would close, the one at this place.
fn cycle_at(rt: &impl Abort, added: Result<(), LoadStop>, place: usize) -> Track {
    match added {
        Err(LoadStop::Cycle { at, track }) => {
            assert!(rt; at == place);
            track
        }
        _ => panic!(rt; "no cycle"),
    }
}

/// Whether one of several pairs was there, the one at this place.
fn is_there(added: &Result<(), LoadStop>, place: usize) -> bool {
    match added {
        Err(LoadStop::There { at }) => *at == place,
        _ => false,
    }
}

#[test]
fn pairs_come_and_go(rt: HostRuntime) {
    let mut order = Order::make(rt.alloc());
    assert!(rt; order.add(1, 2).is_ok());
    assert!(rt; order.add(2, 3).is_ok());
    assert!(rt; cycle_of(&rt, order.add(3, 1)).as_slice() == [1, 2, 3].as_slice());
    order.drop_item(2);
    assert!(rt; order.drop_pair(1, 2).is_err());
    assert!(rt; order.add(3, 1).is_ok());
    assert!(rt; matches!(order.add(3, 1), Err(SupStop::There)));
    let track = cycle_of(&rt, order.add(1, 1));
    assert!(rt; track.len() == 1);
    assert!(rt; !track.is_empty());
    assert!(rt; track.get(0).copied() == Some(1));
    assert!(rt; order.above(3, 1));
    assert!(rt; order.drop_pair(3, 1).is_ok());
    assert!(rt; !order.above(3, 1));
}

#[test]
fn pairs_come_at_once(rt: HostRuntime) {
    let mut order = Order::make(rt.alloc());
    let chain = [Link { upper: 1, lower: 2 }, Link { upper: 2, lower: 3 }];
    assert!(rt; order.add_all(&chain).is_ok());
    let more = [Link { upper: 3, lower: 4 }, Link { upper: 1, lower: 2 }];
    assert!(rt; is_there(&order.add_all(&more), 1));
    let back = [Link { upper: 0, lower: 1 }, Link { upper: 4, lower: 0 }];
    let track = cycle_at(&rt, order.add_all(&back), 1);
    assert!(rt; track.as_slice() == [0, 1, 2, 3, 4].as_slice());
    assert!(rt; order.copy().expect(&rt, "room").above(0, 1));
}

#[test]
fn items_lie_far_apart(rt: HostRuntime) {
    let mut order = Order::make(rt.alloc());
    assert!(rt; order.add(1_000_000_000_000_000_000, 5).is_ok());
    assert!(rt; order.add(5, 1_000_000_000_000).is_ok());
    assert!(rt; order.add(1_000_000_000_000, 300).is_ok());
    for at in 0..300usize {
        assert!(rt; order.add(300 + at, 301 + at).is_ok());
    }
    assert!(rt; cycle_of(&rt, order.add(600, 1_000_000_000_000_000_000)).len() == 304);
}

#[test]
fn a_chain_grows_from_its_top(rt: HostRuntime) {
    let mut order = Order::make(rt.alloc());
    for at in 0..100_000usize {
        assert!(rt; order.add(at, at + 1).is_ok());
    }
    assert!(rt; cycle_of(&rt, order.add(100_000, 0)).len() == 100_001);
}

#[test]
fn a_chain_grows_from_its_bottom(rt: HostRuntime) {
    let mut order = Order::make(rt.alloc());
    for at in 0..100_000usize {
        assert!(rt; order.add(99_999 - at, 100_000 - at).is_ok());
    }
    assert!(rt; cycle_of(&rt, order.add(100_000, 0)).len() == 100_001);
}

#[test]
fn a_chain_grows_in_mixed_order(rt: HostRuntime) {
    let mut order = Order::make(rt.alloc());
    for step in 0..100_000usize {
        let at = step * 7919 % 100_000;
        assert!(rt; order.add(at, at + 1).is_ok());
    }
    assert!(rt; cycle_of(&rt, order.add(100_000, 0)).len() == 100_001);
}

fn pair(upper: usize, lower: usize) -> Link {
    Link { upper, lower }
}

/// A list of pairs that the fast check sees to be an order.
fn order_of(rt: &impl Abort, alloc: Global, pairs: &[Link]) -> Vec<Link>
    ensures { IsOrder result.items }
{
    let links = pairs.to_vec(alloc).expect(rt, "room");
    let is_order = is_order(alloc, links.as_slice()).expect(rt, "room");
    assert!(rt; is_order);
    links
}

#[test]
fn pairs_come_behind_a_list(rt: HostRuntime) {
    let mut links = order_of(&rt, rt.alloc(), &[pair(1, 2), pair(2, 3)]);
    assert!(rt; extend_order(&mut links, &[pair(0, 1), pair(1, 3)]).is_ok());
    let all = [pair(1, 2), pair(2, 3), pair(0, 1), pair(1, 3)];
    assert!(rt; links.as_slice() == all.as_slice());
    let mut none = order_of(&rt, rt.alloc(), &[]);
    assert!(rt; extend_order(&mut none, &all).is_ok());
    assert!(rt; none.as_slice() == all.as_slice());
}

#[test]
fn a_pair_is_there(rt: HostRuntime) {
    let base = [pair(1, 2), pair(2, 3)];
    let mut links = order_of(&rt, rt.alloc(), &base);
    let twice = [pair(3, 4), pair(1, 2), pair(4, 5)];
    assert!(rt; is_there(&extend_order(&mut links, &twice), 1));
    assert!(rt; links.as_slice() == [pair(1, 2), pair(2, 3), pair(3, 4)].as_slice());
    let mut links = order_of(&rt, rt.alloc(), &base);
    let both = [pair(2, 9), pair(5, 1), pair(2, 9)];
    assert!(rt; is_there(&extend_order(&mut links, &both), 2));
    assert!(rt; links.len() == 4);
}

#[test]
fn a_pair_closes_a_cycle(rt: HostRuntime) {
    let base = [pair(1, 2), pair(2, 3)];
    let mut links = order_of(&rt, rt.alloc(), &base);
    let added = extend_order(&mut links, &[pair(0, 1), pair(3, 0), pair(3, 4)]);
    assert!(rt; cycle_at(&rt, added, 1).as_slice() == [0, 1, 2, 3].as_slice());
    assert!(rt; links.as_slice() == [pair(1, 2), pair(2, 3), pair(0, 1)].as_slice());
    let mut links = order_of(&rt, rt.alloc(), &base);
    let added = extend_order(&mut links, &[pair(7, 7)]);
    assert!(rt; cycle_at(&rt, added, 0).as_slice() == [7].as_slice());
    assert!(rt; links.as_slice() == base.as_slice());
}

#[test]
fn an_item_lies_far_beyond_the_pairs(rt: HostRuntime) {
    let far = 1usize << 40;
    let mut links = order_of(&rt, rt.alloc(), &[pair(1, 2)]);
    let more = [pair(far, 1), pair(2, usize::MAX)];
    assert!(rt; !is_order(rt.alloc(), &more).expect(&rt, "room"));
    assert!(rt; extend_order(&mut links, &more).is_ok());
    assert!(rt; links.as_slice() == [pair(1, 2), pair(far, 1), pair(2, usize::MAX)].as_slice());
    let mut links = order_of(&rt, rt.alloc(), &[pair(1, 2)]);
    let added = extend_order(&mut links, &[pair(2, far), pair(far, 1)]);
    assert!(rt; cycle_at(&rt, added, 1).as_slice() == [1, 2, far].as_slice());
}

#[test]
fn many_pairs_are_seen_to_be_an_order(rt: HostRuntime) {
    let mut pairs = Vec::new(rt.alloc());
    for step in 0..100_000usize {
        let at = step * 7919 % 100_000;
        pairs.push(pair(at, at + 1)).expect(&rt, "room");
        pairs.push(pair(at, at + 2 + at / 2)).expect(&rt, "room");
    }
    let mut links = order_of(&rt, rt.alloc(), &[]);
    assert!(rt; is_order(rt.alloc(), pairs.as_slice()).expect(&rt, "room"));
    assert!(rt; extend_order(&mut links, pairs.as_slice()).is_ok());
    assert!(rt; links.len() == 200_000);
}
