// How a program uses the service key: a key that is drawn goes back, and the next set takes a new one.
#![tactic(auto)]

ghost use Rattle.std.specs.Prelude.{◌≡◌, true, false};
ghost use Rattle.clocked.specs.Changes.{locking, setting};
ghost use Rattle.clocked.specs.Refusals.{fits};
ghost use Rattle.key_use.specs.Service.{Serviced, with_register, with_registers};

use clocked::{Key, Processor};
use refusal::Refusal;

// Sets a register: draws the key, sets with it and gives it back. Refused, with nothing changed, as a draw is.
pub fn set_register(processor: &mut Processor, register: u8, word: u32) -> Result<(), Refusal>
    ensures { Serviced processor.old (with_register register word processor.old)
        result processor.new }
{
    let key = processor.draw()?;
    set_with(processor, &key, register, word);
    hand_back(processor, key);
    Ok(())
}

// Sets two registers, the second with a key of its own; of a register that is given twice the second word counts.
pub fn set_registers(
    processor: &mut Processor,
    first: (u8, u32),
    second: (u8, u32),
) -> Result<(), Refusal>
    ensures { Serviced processor.old (with_registers first second processor.old)
        result processor.new }
{
    let first_key = processor.draw()?;
    set_with(processor, &first_key, first.0, first.1);
    hand_back(processor, first_key);
    let second_key = processor.draw()?;
    set_with(processor, &second_key, second.0, second.1);
    hand_back(processor, second_key);
    Ok(())
}

fn set_with(processor: &mut Processor, key: &Key, register: u8, word: u32)
    requires { fits key.now processor.old ≡ true }
    ensures { processor.new ≡ setting register word processor.old }
{
    processor.set(key, register, word).unwrap();
}

fn hand_back(processor: &mut Processor, key: Key)
    requires { fits key processor.old ≡ true }
    ensures { processor.new ≡ locking false processor.old }
{
    match processor.give_back(key) {
        Ok(()) => {}
        Err(_not_taken) => unreachable!(),
    }
}
