//! Items come and go; their keys stay.

use super::*;
use std::test::Fail;

// The mark of the arena of these tests.
struct OfWords;

#[test]
fn keys_are_given_once(rt: HostRuntime) -> Result<(), Fail> {
    let mut words: Arena<OfWords, &'static str> = Arena::new(rt.alloc());
    assert_eq!(rt; words.made(), 0);
    assert_eq!(rt; words.len(), 0);
    words.reserve(2)?;
    assert!(rt; words.insert("lever") == Ok(Key::new(0)));
    assert!(rt; words.insert("lamp") == Ok(Key::new(1)));
    assert_eq!(rt; words.remove(Key::new(0)), Some("lever"));
    assert_eq!(rt; words.remove(Key::new(0)), None);
    assert!(rt; words.insert("torch") == Ok(Key::new(2)));
    assert_eq!(rt; words.made(), 3);
    assert_eq!(rt; words.len(), 2);
    assert!(rt; words.keys()?.as_slice() == [Key::new(1), Key::new(2)].as_slice());
    Ok(())
}

#[test]
fn items_are_read_and_written(rt: HostRuntime) -> Result<(), Fail> {
    let mut counts: Arena<OfWords, u32> = Arena::new(rt.alloc());
    let first = counts.insert(5).ok().expect(&rt, "memory");
    let second = counts.insert(7).ok().expect(&rt, "memory");
    assert_eq!(rt; (first.number(), second.number()), (0, 1));
    if let Some(count) = counts.get_mut(second) {
        *count = 9;
    }
    assert_eq!(rt; counts.get(first).copied(), Some(5));
    assert_eq!(rt; counts.get(second).copied(), Some(9));
    assert_eq!(rt; counts.get(Key::new(2)).copied(), None);
    assert!(rt; counts.get_mut(Key::new(2)).is_none());
    Ok(())
}
