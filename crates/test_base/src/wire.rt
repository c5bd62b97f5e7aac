//! Lanes: what comes back, what is left, and a list that goes from one real thread to another.
ghost use Rattle.std.specs.Prelude.{◌≡◌, ◌++◌, [], ◌∷◌, IfOk, IfSome};
ghost use Rattle.rb_wire.specs.Lane.{sent_on, taken_on, IsLane, SameTx, SameRx};

use crate::same::assert_same;
use rb_wire::{LaneFull, Rx, Tx, lane};
use std::alloc::{AllocError, Global};
use std::process::Abort;
use std::sync::Wait;
use std::test::Fail;
use std::thread;
use std::thread::Threads;

/// Two items are sent on a lane of two, and no third one.
fn check_full(rt: &impl Abort, tx: &mut Tx<u32>) -> Result<(), Fail>
    ensures { SameTx tx.old tx.new }
{
    assert!(rt; tx.push(1).is_ok() && tx.push(2).is_ok());
    let Err(refusal) = tx.push(3) else {
        return Err(Fail::from("a lane of two took three"));
    };
    assert!(rt; refusal.number() == 901 && refusal.item == 3);
    Ok(())
}

/// What is left on a lane once its sending end has finished; None where no token was given.
fn left_of(tx: Tx<u32>, rx: Rx<u32>) -> Result<Option<Vec<u32>>, AllocError>
    requires { IsLane tx rx }
    ensures { IfOk result (λ got. IfSome got (λ left. taken_on rx ++ left.items ≡ sent_on tx)) }
{
    let Some(token) = tx.finish() else {
        return Ok(None);
    };
    match rx.finished(token) {
        Ok(left) => Ok(Some(left)),
        Err(_) => Err(AllocError),
    }
}

#[test]
fn what_is_left_follows_what_was_taken(rt: HostRuntime) -> Result<(), Fail> {
    let (mut tx, mut rx) = lane::<u32, _>(rt.alloc(), 2)?;
    check_full(&rt, &mut tx)?;
    assert_same(&rt, "taken", rx.pop(), Some(1));
    let left = left_of(tx, rx)?.ok_or("the other end is there")?;
    assert_same(&rt, "left", &left.as_slice(), &[2].as_slice());
    Ok(())
}

/// Waits until the item is sent.
fn push_waiting(rt: &impl Wait, tx: &mut Tx<u32>, item: u32)
    ensures lane { SameTx tx.old tx.new }
    ensures sent { sent_on tx.new ≡ sent_on tx.old ++ item ∷ [] }
{
    let mut item = item;
    for _ in rt.forever() {
        match tx.push(item) {
            Ok(()) => return,
            Err(LaneFull { item: back }) => item = back,
        }
        thread::yield_now();
    }
    unreachable!()
}

/// Sends all items, waiting for room.
fn push_all(rt: &impl Wait, tx: Tx<u32>, items: &[u32]) -> Tx<u32>
    requires { sent_on tx ≡ [] }
    ensures lane { SameTx tx result }
    ensures sent { sent_on result ≡ items.now }
{
    let mut tx = tx;
    for item in items {
        push_waiting(rt, &mut tx, *item);
    }
    tx
}

/// Takes what can be seen within so many looks, as long as there is room for it.
fn take_some(rx: Rx<u32>, looks: u32, room: Vec<u32>) -> (Rx<u32>, Vec<u32>)
    requires { (taken_on rx ≡ []) × (room.items ≡ []) }
    ensures lane { SameRx rx result.0 }
    ensures taken { result.1.items ≡ taken_on result.0 }
{
    let mut rx = rx;
    let mut taken = room;
    for _ in 0..looks {
        if taken.len() >= taken.capacity() {
            break;
        }
        match rx.pop() {
            Some(item) => taken.push_reserved(item),
            None => thread::yield_now(),
        }
    }
    (rx, taken)
}

/// The items, as they came out at the other end: some were taken while the other thread sent, the rest
/// once it had finished. None where no token was given.
fn send_across<R: Threads + Wait + Sync>(
    rt: &R,
    alloc: Global,
    items: &[u32],
    looks: u32,
) -> Result<Option<Vec<u32>>, AllocError>
    ensures { IfOk result (λ got. IfSome got (λ all. all.items ≡ items.now)) }
{
    let (tx, rx) = lane::<u32, _>(alloc, 2)?;
    let room = Vec::with_capacity(alloc, items.len())?;
    let (tx, (rx, taken)) = thread::join(
        rt,
        move || -> Tx<u32>
            requires { sent_on tx ≡ [] }
            ensures { SameTx tx result × (sent_on result ≡ items.entry.now) }
        { push_all(rt, tx, items) },
        move || -> (Rx<u32>, Vec<u32>)
            requires { (taken_on rx ≡ []) × (room.items ≡ []) }
            ensures { SameRx rx result.0 × (result.1.items ≡ taken_on result.0) }
        { take_some(rx, looks, room) },
    );
    let Some(left) = left_of(tx, rx)? else {
        return Ok(None);
    };
    let mut all = taken;
    all.extend_from_slice(left.as_slice())?;
    Ok(Some(all))
}

const ITEMS: &[u32] = &[7, 8, 9, 10, 11];

/// The list is longer than the lane, so that one thread's pushes and the other's pops must meet.
#[test]
fn lane_delivers(rt: HostRuntime) -> Result<(), Fail> {
    let all = send_across(&rt, rt.alloc(), ITEMS, 100_000_000)?.ok_or("the other end is there")?;
    assert_same(&rt, "items", all.as_slice(), ITEMS);
    Ok(())
}
