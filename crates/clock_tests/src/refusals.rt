// The order of the refusals: a key that is out, a halt, a transfer.
use super::script::{Answer, Call, Said, follows};
use card::{Direction, Request, WordCard};
use refusal::Refusal;
use std::test::Fail;

const FOREIGN: Request = Request {
    direction: Direction::Write(5),
    address: 0,
};

// A load from an absent cell halts; then somebody begins a transfer, and the key is drawn. No refused call touches the
// transfer, which the accepted reset cancels.
static KEY_THEN_HALT: [(Call, Answer); 17] = [
    (Call::Clocks(7), Ok(Said::Nothing)),
    (Call::Begin(FOREIGN), Ok(Said::Waits(0))),
    (Call::Clock, Err(Refusal::Halted)),
    (Call::Draw, Ok(Said::Nothing)),
    (Call::Clock, Err(Refusal::KeyOut)),
    (Call::Reset, Err(Refusal::KeyOut)),
    (Call::Draw, Err(Refusal::KeyOut)),
    (Call::GiveBack, Ok(Said::Nothing)),
    (Call::Clock, Err(Refusal::Halted)),
    (Call::Begin(FOREIGN), Err(Refusal::Transfer)),
    (Call::Reset, Ok(Said::Nothing)),
    (Call::Poll, Err(Refusal::Transfer)),
    (Call::Clocks(1), Ok(Said::Nothing)),
    (Call::Begin(FOREIGN), Ok(Said::Waits(0))),
    (Call::Clock, Err(Refusal::Transfer)),
    (Call::Draw, Err(Refusal::NoBoundary)),
    (Call::Reset, Ok(Said::Nothing)),
];

#[test]
fn key_then_halt(rt: HostRuntime) -> Result<(), Fail> {
    let mut words = [0x3001_0009];
    follows(&rt, &mut WordCard::new(&mut words), &KEY_THEN_HALT)
}
