// Two threads that pass copies over a link in order; and both ends in one hand, where each look is a new one.
ghost use Rattle.std.specs.Prelude.{◌<◌, ◌≤◌};
ghost use Rattle.link_queue.specs.Ends.{IsTx, IsRx};

use link_queue::{
    FirstList, Link, LinkEnds, Offered, Rx, Tx, WholeLink, link_down, link_up, offer, take,
};
use spin_base::{McCopy, Seq};
use std::alloc::Global;
use std::sync::Wait;
use std::thread;
use std::thread::Threads;

fn copy_of(packet: u32) -> McCopy {
    McCopy {
        packet,
        key: 0,
        payload: None,
        hop: 0,
    }
}

/// Offers the copies of packets 0 to `count`, each until it is taken.
fn send_all<R: Wait>(rt: &R, link: &Link, mut tx: Tx, count: u32)
    requires { IsTx link.now tx }
{
    let mut next = 0;
    for _ in rt.forever() {
        if next >= count {
            break;
        }
        match offer(rt, link, &mut tx, copy_of(next)) {
            Offered::Taken => next += 1,
            Offered::Full(_) => thread::yield_now(),
        }
    }
}

/// Takes that many copies, and says whether they came in order.
fn take_all<R: Wait>(rt: &R, link: &Link, mut rx: Rx, count: u32) -> bool
    requires { IsRx link.now rx }
{
    let mut next = 0;
    let mut in_order = true;
    for _ in rt.forever() {
        if next >= count {
            break;
        }
        match take(rt, link, &mut rx) {
            Some(copy) => {
                in_order = in_order && copy.packet == next;
                next += 1;
            }
            None => thread::yield_now(),
        }
    }
    in_order
}

/// Whether a hundred thousand copies pass in order from one thread to another over a link of so many places.
fn passes_many<R: Threads + Wait + Sync>(rt: &R, alloc: Global, places: u32) -> bool
    requires some { 1 ≤ places }
    requires few { places ≤ 64 }
{
    let first = FirstList {
        list: Seq::new(alloc),
        cap: places,
    };
    let Ok(ends) = link_up(rt, alloc, first) else {
        return false;
    };
    let LinkEnds {
        link,
        tx,
        rx,
        room: _room,
    } = ends;
    let shared = &link;
    let (_sent, in_order) = thread::join(
        rt,
        move ||
            requires { IsTx shared.now tx }
        { send_all(rt, shared, tx, 100_000) },
        move ||
            requires { IsRx shared.now rx }
        { take_all(rt, shared, rx, 100_000) },
    );
    in_order
}

#[test]
fn two_threads_pass_copies_in_order(rt: HostRuntime) {
    assert!(rt; passes_many(&rt, rt.alloc(), 1));
    assert!(rt; passes_many(&rt, rt.alloc(), 64));
}

/// Offers the copy of a packet, and says whether it came back; None where another came.
fn comes_back<R: Wait>(rt: &R, link: &Link, tx: &mut Tx, packet: u32) -> Option<bool>
    requires { IsTx link.now tx.old }
    ensures { IsTx link.now tx.new }
{
    match offer(rt, link, tx, copy_of(packet)) {
        Offered::Taken => Some(false),
        Offered::Full(copy) if copy == copy_of(packet) => Some(true),
        Offered::Full(_) => None,
    }
}

/// The number of the packet whose copy is taken.
fn taken<R: Wait>(rt: &R, link: &Link, rx: &mut Rx) -> Option<u32>
    requires { IsRx link.now rx.old }
    ensures { IsRx link.now rx.new }
{
    take(rt, link, rx).map(|copy| copy.packet)
}

/// Of a link of two places that holds the copies 1 and 2: an offer of 3 comes back, and after a take of 1 it is taken. Then 2
/// and 3 are taken, none is there, and none is held.
fn looks_again<R: Wait>(rt: &R, alloc: Global) -> bool {
    let Ok(copies) = vec![in alloc; copy_of(1), copy_of(2)] else {
        return false;
    };
    let first = FirstList {
        list: Seq::from_vec(copies),
        cap: 2,
    };
    let Ok(ends) = link_up(rt, alloc, first) else {
        return false;
    };
    let LinkEnds {
        link,
        mut tx,
        mut rx,
        room,
    } = ends;
    let offers_full = comes_back(rt, &link, &mut tx, 3);
    let first = taken(rt, &link, &mut rx);
    let offers_room = comes_back(rt, &link, &mut tx, 3);
    let others = [
        taken(rt, &link, &mut rx),
        taken(rt, &link, &mut rx),
        taken(rt, &link, &mut rx),
    ];
    let held = link_down(rt, WholeLink { link, tx, rx, room });
    offers_full == Some(true)
        && first == Some(1)
        && offers_room == Some(false)
        && others == [Some(2), Some(3), None]
        && held.is_empty()
}

/// Of a link that holds none: none is taken, and after an offer that copy.
fn finds_it_then<R: Wait>(rt: &R, alloc: Global) -> bool {
    let first = FirstList {
        list: Seq::new(alloc),
        cap: 2,
    };
    let Ok(ends) = link_up(rt, alloc, first) else {
        return false;
    };
    let LinkEnds {
        link,
        mut tx,
        mut rx,
        room: _room,
    } = ends;
    let before = taken(rt, &link, &mut rx);
    let back = comes_back(rt, &link, &mut tx, 1);
    let after = taken(rt, &link, &mut rx);
    before == None && back == Some(false) && after == Some(1)
}

#[test]
fn an_end_looks_again_after_full_and_after_none(rt: HostRuntime) {
    assert!(rt; looks_again(&rt, rt.alloc()) && finds_it_then(&rt, rt.alloc()));
}
