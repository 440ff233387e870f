// What follows the first word of each command.
ghost use Rattle.std.specs.Prelude.{◌≡◌};
ghost use Rattle.command.specs.Commands.{parsed, card_of, store_of, layer_of, slow_of, load_of, power_of, set_of, memory_of};
ghost use Rattle.command.specs.Lines.{operands_of, command_of};

use crate::keyword::Keyword;
use crate::words::{Name, Words};
use crate::{Bottom, Command, MachineKind, Wrong};
use layer::Kind;

const CARD_LIMIT: u32 = 65536;

// The command that all words of a line make; None where there is no word.
pub fn command<'a>(words: &mut Words<'a>) -> Result<Option<Command<'a>>, Wrong>
    ensures { result ≡ command_of words.old }
{
    let Some(word) = words.next() else {
        return Ok(None);
    };
    let keyword = Keyword::try_from(word)?;
    Ok(Some(complete(keyword, words)?))
}

// The command that a keyword and all the words after it make.
fn complete<'a>(keyword: Keyword, words: &mut Words<'a>) -> Result<Command<'a>, Wrong>
    ensures { result ≡ operands_of keyword words.old }
{
    let command = with_operands(keyword, words)?;
    words.end()?;
    Ok(command)
}

// The command that a keyword and its operands make, with the words after them left.
fn with_operands<'a>(keyword: Keyword, words: &mut Words<'a>) -> Result<Command<'a>, Wrong>
    ensures { parsed result words.new ≡ operands_of keyword words.old }
{
    match keyword {
        Keyword::Card => card(words),
        Keyword::Words => store(words),
        Keyword::Layer => layer(words),
        Keyword::Load => load(words),
        Keyword::Power => power(words),
        Keyword::Clock => Ok(Command::Clock(words.count()?)),
        Keyword::Instruction => Ok(Command::Instruction(words.count()?)),
        Keyword::Reset => Ok(Command::Reset),
        Keyword::Draw => Ok(Command::Draw),
        Keyword::Set => set(words),
        Keyword::Give => Ok(Command::Give),
        Keyword::Registers => Ok(Command::Registers),
        Keyword::Flags => Ok(Command::Flags),
        Keyword::Pc => Ok(Command::Pc),
        Keyword::Fault => Ok(Command::Fault),
        Keyword::Look => Ok(Command::Look(words.number()?)),
        Keyword::Memory => memory(words),
        Keyword::Place => Ok(Command::Place(words.number()?, words.number()?)),
    }
}

fn card<'a>(words: &mut Words<'a>) -> Result<Command<'a>, Wrong>
    ensures { parsed result words.new ≡ card_of words.old }
{
    let bottom = Bottom::try_from(words.operand()?)?;
    let count = words.number()?;
    if count > CARD_LIMIT {
        return Err(Wrong::CardTooLarge);
    }
    Ok(Command::Card(bottom, count))
}

fn store<'a>(words: &mut Words<'a>) -> Result<Command<'a>, Wrong>
    ensures { parsed result words.new ≡ store_of words.old }
{
    let from = words.number()?;
    let list = words.numbers()?;
    if list.is_empty() {
        return Err(Wrong::MissingOperand);
    }
    Ok(Command::Words(from, list))
}

fn layer<'a>(words: &mut Words<'a>) -> Result<Command<'a>, Wrong>
    ensures { parsed result words.new ≡ layer_of words.old }
{
    match words.operand()? {
        b"offset" => Ok(Command::Layer(Kind::Offset(words.number()?))),
        b"guard" => Ok(Command::Layer(Kind::Guard(words.number()?, words.number()?))),
        b"slow" => slow(words),
        _ => Err(Wrong::UnknownLayer),
    }
}

fn slow<'a>(words: &mut Words<'a>) -> Result<Command<'a>, Wrong>
    ensures { parsed result words.new ≡ slow_of words.old }
{
    let waits = u8::try_from(words.number()?).map_err(|_| Wrong::SlowTooLarge)?;
    Ok(Command::Layer(Kind::Slow(waits)))
}

fn load<'a>(words: &mut Words<'a>) -> Result<Command<'a>, Wrong>
    ensures { parsed result words.new ≡ load_of words.old }
{
    Ok(Command::Load(Name::new(words.operand()?)))
}

fn power<'a>(words: &mut Words<'a>) -> Result<Command<'a>, Wrong>
    ensures { parsed result words.new ≡ power_of words.old }
{
    let kind = MachineKind::try_from(words.operand()?)?;
    Ok(Command::Power(kind, words.number()?))
}

fn set<'a>(words: &mut Words<'a>) -> Result<Command<'a>, Wrong>
    ensures { parsed result words.new ≡ set_of words.old }
{
    let register = u8::try_from(words.number()?).map_err(|_| Wrong::RegisterTooLarge)?;
    Ok(Command::Set(register, words.number()?))
}

fn memory<'a>(words: &mut Words<'a>) -> Result<Command<'a>, Wrong>
    ensures { parsed result words.new ≡ memory_of words.old }
{
    let address = words.number()?;
    let count = words.number()?;
    if u64::from(address) + u64::from(count) > 1 << 32 {
        return Err(Wrong::PastLastAddress);
    }
    Ok(Command::Memory(address, count))
}
