// What several tests share.
use card::{AccessFault, Card, Cause, Cell, Cells, End, Origin};
use machine::{Machine, Outcome};
use std::fmt::Debug;
use std::process::Abort;
use std::test::Fail;

// The comparison of every test. It stands in a function of its own, since a check takes a second for each place where the macro
// stands, and next to nothing for a call of this.
pub fn equal<T: PartialEq + Debug + Drop>(rt: &impl Abort, found: T, expected: T) {
    assert_eq!(rt; found, expected);
}

// The end of a transfer that is refused there.
pub fn fault(cause: Cause, address: u32, layer: u8) -> End {
    let origin = Origin { address, layer };
    Err(AccessFault { cause, origin })
}

// What stands at each of these addresses of a card. Rows in a loop are checked faster than as many assertions.
pub fn shows<C: Cells>(rt: &impl Abort, card: &C, cells: &[(u32, Cell)]) {
    for (address, cell) in cells {
        equal(rt, card.look(*address), *cell);
    }
}

// Runs so many instructions on the card, which all have to be done, and answers the machine.
pub fn run<C: Card>(rt: &impl Abort, card: &mut C, count: u32) -> Result<Machine, Fail> {
    let mut axis = Machine::power_up(1, card)?;
    for _ in 0..count {
        assert!(rt; matches!(axis.instruction(card), Ok(Outcome::Done | Outcome::Ignored)));
    }
    Ok(axis)
}
