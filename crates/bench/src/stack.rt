// A stack of up to three layers over a bottom card. A stack is a type, and so is how many more layers it may get: a `dyn Card`
// has no proof yet behind a `&`.
use card::Card;
use layer::{Kind, Layer};
use std::io;

// What is done on a card of any type: so it is a trait, where a closure would have one type of card.
pub trait Task: Drop {
    type Answer;

    fn perform<C: Card>(self, rt: &HostRuntime, card: &mut C) -> io::Result<Self::Answer>;
}

pub trait Height {
    // Puts the layers on the card, from the lowest up, and does the task on the whole stack.
    fn perform<C: Card + Drop, T: Task>(
        rt: &HostRuntime,
        card: C,
        layers: &[Kind],
        task: T,
    ) -> io::Result<T::Answer>;
}

// No more layers.
pub struct NoLayer;

// One more layer, and then as many as `H` has.
pub struct OneMore<H>(H);

pub type UpToThree = OneMore<OneMore<OneMore<NoLayer>>>;

impl Height for NoLayer {
    fn perform<C: Card + Drop, T: Task>(
        rt: &HostRuntime,
        mut card: C,
        _layers: &[Kind],
        task: T,
    ) -> io::Result<T::Answer> {
        task.perform(rt, &mut card)
    }
}

impl<H: Height> Height for OneMore<H> {
    fn perform<C: Card + Drop, T: Task>(
        rt: &HostRuntime,
        mut card: C,
        layers: &[Kind],
        task: T,
    ) -> io::Result<T::Answer> {
        match layers {
            [] => task.perform(rt, &mut card),
            [kind, rest @ ..] => H::perform(rt, Layer::new(*kind, card), rest, task),
        }
    }
}
