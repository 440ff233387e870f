// A key at a processor that it was not drawn from.
use super::common::{View, clocks, equal, hand_back, kept, shows};
use card::WordCard;
use clocked::{Key, Processor};
use refusal::Refusal;
use std::process::Abort;
use std::test::Fail;

// The key neither sets nor is taken, and stays with the caller.
fn does_not_fit(rt: &impl Abort, axis: &mut Processor, key: Key) -> Key {
    let before = View::of(axis);
    equal(rt, axis.set(&key, 1, 1), Err(Refusal::Misfit));
    let key = kept(rt, axis, key);
    shows(rt, axis, &before);
    key
}

// A key of another axis does not fit, whether the axis's own key is out or not.
#[test]
fn of_another_axis(rt: HostRuntime) -> Result<(), Fail> {
    let mut words = [0x1001_0001];
    let mut card = WordCard::new(&mut words);
    let mut one = Processor::power_up(1, &mut card)?;
    let mut two = Processor::power_up(2, &mut card)?;
    clocks(&mut two, &mut card, 5)?;
    let key = one.draw()?;
    let key = does_not_fit(&rt, &mut two, key);
    let own = two.draw().expect(&rt, "the key of axis 2");
    let key = does_not_fit(&rt, &mut two, key);
    let own = does_not_fit(&rt, &mut one, own);
    hand_back(&rt, &mut two, own);
    hand_back(&rt, &mut one, key);
    clocks(&mut one, &mut card, 5)?;
    equal(&rt, [one.register(1), two.register(1)], [1, 1]);
    Ok(())
}

// A key bears its axis alone: it fits another processor of that axis exactly while that one's own key is out.
#[test]
fn of_another_processor(rt: HostRuntime) -> Result<(), Fail> {
    let mut words = [0x1001_0001];
    let mut card = WordCard::new(&mut words);
    let mut one = Processor::power_up(3, &mut card)?;
    let mut other = Processor::power_up(3, &mut card)?;
    let key = one.draw()?;
    let key = does_not_fit(&rt, &mut other, key);
    let own = other.draw().expect(&rt, "the other key");
    equal(&rt, other.set(&key, 1, 7), Ok(()));
    hand_back(&rt, &mut other, key);
    equal(&rt, [one.register(1), other.register(1)], [0, 7]);
    assert!(rt; other.clock(&mut card).is_ok());
    equal(&rt, one.clock(&mut card), Err(Refusal::KeyOut));
    hand_back(&rt, &mut one, own);
    assert!(rt; one.clock(&mut card).is_ok());
    Ok(())
}

// A processor that is powered up while the key of an older one is out is not locked, and that key does not fit it.
#[test]
fn of_an_older_processor(rt: HostRuntime) -> Result<(), Fail> {
    let mut words = [0x1001_0001];
    let mut card = WordCard::new(&mut words);
    let mut older = Processor::power_up(1, &mut card)?;
    let key = older.draw()?;
    let mut axis = Processor::power_up(1, &mut card).expect(&rt, "axis 1");
    let key = does_not_fit(&rt, &mut axis, key);
    equal(&rt, clocks(&mut axis, &mut card, 5), Ok(()));
    equal(&rt, older.clock(&mut card), Err(Refusal::KeyOut));
    hand_back(&rt, &mut older, key);
    equal(&rt, [axis.register(1), older.register(1)], [1, 0]);
    Ok(())
}
