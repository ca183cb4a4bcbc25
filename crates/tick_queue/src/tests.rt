// Both queues, through the contract that they share.
ghost use Rattle.std.specs.Prelude.{◌≡◌, ℕ, ◌+◌, ◌<◌, ◌≤◌, ◌≢◌, ◌↔◌, [], List, length, IfOk, IsTrue, OnOk, Some};
ghost use Rattle.std.specs.List.{All};
ghost use Rattle.tick_queue.specs.Ticks.{put_in, NoneDueAt};

use super::*;
use std::process::Abort;
use std::test::Fail;

// Adds three ticks of one time and takes them.
fn take_three<K: Copy + Eq, Q: Queue<K>>(
    queue: &mut Q,
    keys: (K, K, K),
) -> (Option<K>, Option<K>, Option<K>)
    requires start { Q.time queue.old ≡ 0 }
    requires no_tick { Q.ticks queue.old ≡ [] }
    requires room { 3 ≤ Q.spare queue.old }
    ensures by_priority { (result.0 ≡ Some keys.1) × (result.1 ≡ Some keys.2) × (result.2 ≡ Some keys.0) }
    ensures none_left { Q.ticks queue.new ≡ [] }
    ensures room_again { Q.spare queue.new ≡ Q.spare queue.old }
    ensures next { Q.time queue.new ≡ 1 }
{
    let (third, first, second) = keys;
    queue.add(Tick {
        due: 1,
        priority: 2,
        key: third,
    });
    queue.add(Tick {
        due: 1,
        priority: 1,
        key: first,
    });
    queue.add(Tick {
        due: 1,
        priority: 1,
        key: second,
    });
    queue.advance();
    let one = queue.take(1);
    let two = queue.take(1);
    let three = queue.take(2);
    (one, two, three)
}

// Whether no tick is due at the time.
fn is_idle(ticks: &[Tick<u32>], time: u64) -> bool
    ensures { IsTrue result ↔ All (λ tick. tick.due ≢ time) ticks.now }
{
    ticks.iter().all(|tick| tick.due != time)
}

// Goes to the next time, if no tick is due now.
#[tactic(auto, using(crate::proofs::TickSteps::none_due_all))]
fn advance_idle<Q: Queue<u32>>(queue: &mut Q) -> Result<(), NoMemory> {
    let now = queue.now();
    if now < 10_000 && is_idle(&queue.list()?, now) {
        queue.advance();
    }
    Ok(())
}

// Adds a tick, so long after now.
fn add_after<Q: Queue<u32>>(
    queue: &mut Q,
    after: u64,
    priority: u8,
    key: u32,
) -> Result<(), NoMemory>
    requires later { 0 < after }
    requires soon { after ≤ 15 }
    requires priority { priority ≤ 3 }
{
    let now = queue.now();
    if now < 10_000 {
        queue.reserve(1)?;
        queue.add(Tick {
            due: now + after,
            priority,
            key,
        });
    }
    Ok(())
}

// Notes the time and all ticks.
fn note<Q: Queue<u32>>(queue: &Q, notes: &mut Vec<u64>) -> Result<(), NoMemory> {
    notes.push(queue.now())?;
    for tick in &queue.list()? {
        notes.push(tick.due)?;
        notes.push(tick.priority as u64)?;
        notes.push(tick.key as u64)?;
    }
    Ok(())
}

// One call by a random number, and a note of what came of it.
fn step<Q: Queue<u32>>(queue: &mut Q, random: u32, notes: &mut Vec<u64>) -> Result<(), NoMemory> {
    let priority = (random / 8 % 4) as u8;
    match random % 8 {
        0 | 1 => add_after(queue, (random / 32 % 15 + 1) as u64, priority, random)?,
        7 => advance_idle(queue)?,
        _ => match queue.take(priority) {
            Some(key) => notes.push(key as u64)?,
            None => notes.push(u64::MAX)?,
        },
    }
    note(queue, notes)
}

// Many calls by fixed pseudo-random numbers.
fn play<Q: Queue<u32>>(alloc: Global, queue: &mut Q) -> Result<Vec<u64>, NoMemory> {
    let mut notes = Vec::new(alloc);
    let mut random = 1u32;
    for _ in 0..3000 {
        random = random.wrapping_mul(1_664_525).wrapping_add(1_013_904_223);
        step(queue, random / 256, &mut notes)?;
    }
    Ok(notes)
}

#[test]
fn list_and_ring_side_by_side(rt: HostRuntime) -> Result<(), Fail> {
    let mut list = ListQueue::new(rt.alloc());
    let mut ring = RingQueue::new(rt.alloc());
    let list_notes = play(rt.alloc(), &mut list)?;
    let ring_notes = play(rt.alloc(), &mut ring)?;
    assert!(rt; list.now() > 64);
    assert!(rt; list_notes.len() > 10_000);
    assert_eq!(rt; list_notes.as_slice(), ring_notes.as_slice());
    Ok(())
}

// The keys of the ticks, in order.
fn keys<Q: Queue<u32>>(alloc: Global, queue: &Q) -> Result<Vec<u32>, NoMemory> {
    let mut keys = Vec::new(alloc);
    for tick in &queue.list()? {
        keys.push(tick.key)?;
    }
    Ok(keys)
}

fn check_order<Q: Queue<u32>>(
    rt: &impl Abort,
    alloc: Global,
    queue: &mut Q,
) -> Result<(), NoMemory> {
    for (key, (after, priority)) in [(2, 1), (1, 3), (2, 1), (1, 0), (2, 0), (1, 3)]
        .iter()
        .enumerate()
    {
        add_after(queue, *after, *priority, key as u32)?;
    }
    assert_eq!(rt;
        keys(alloc, queue)?.as_slice(),
        [3, 1, 5, 4, 0, 2].as_slice()
    );
    advance_idle(queue)?;
    assert_eq!(rt; queue.take(1), None);
    assert_eq!(rt; queue.take(3), Some(1));
    assert_eq!(rt; queue.take(3), Some(5));
    assert_eq!(rt; queue.take(3), None);
    assert_eq!(rt; keys(alloc, queue)?.as_slice(), [3, 4, 0, 2].as_slice());
    Ok(())
}

#[test]
fn order_of_adding(rt: HostRuntime) -> Result<(), Fail> {
    check_order(&rt, rt.alloc(), &mut ListQueue::new(rt.alloc()))?;
    check_order(&rt, rt.alloc(), &mut RingQueue::new(rt.alloc()))?;
    Ok(())
}

// A tick that is due 15 later comes at its time, round after round.
fn check_rounds<Q: Queue<u32>>(rt: &impl Abort, queue: &mut Q) -> Result<(), NoMemory> {
    for time in 0..100u32 {
        add_after(queue, 15, 2, time)?;
        let expected = if time < 15 { None } else { Some(time - 15) };
        assert_eq!(rt; queue.take(2), expected);
        advance_idle(queue)?;
        assert_eq!(rt; queue.now(), time as u64 + 1);
    }
    Ok(())
}

#[test]
fn more_than_sixteen_times(rt: HostRuntime) -> Result<(), Fail> {
    check_rounds(&rt, &mut ListQueue::new(rt.alloc()))?;
    check_rounds(&rt, &mut RingQueue::new(rt.alloc()))?;
    Ok(())
}

#[test]
fn three_of_one_time(rt: HostRuntime) -> Result<(), Fail> {
    let mut list = ListQueue::new(rt.alloc());
    list.reserve(3)?;
    assert_eq!(rt;
        take_three(&mut list, (7, 8, 9)),
        (Some(8), Some(9), Some(7))
    );
    let mut ring = RingQueue::new(rt.alloc());
    ring.reserve(3)?;
    assert_eq!(rt;
        take_three(&mut ring, (7, 8, 9)),
        (Some(8), Some(9), Some(7))
    );
    Ok(())
}
