// The words that commands begin with.
ghost use Rattle.std.specs.Prelude.{◌≡◌};
ghost use Rattle.std.specs.Option.{ok_or};
ghost use Rattle.command.specs.Keywords.{keyword_of};
ghost use Rattle.command.specs.declared.Wrong.TheVariants.{UnknownCommand};

use crate::Wrong;

#[derive(Clone, Copy)]
pub enum Keyword {
    Card,
    Words,
    Layer,
    Load,
    Power,
    Clock,
    Instruction,
    Reset,
    Draw,
    Set,
    Give,
    Registers,
    Flags,
    Pc,
    Fault,
    Look,
    Memory,
    Place,
}

impl TryFrom<&[u8]> for Keyword {
    type Error = Wrong;

    ghost try_from_gives = { λ word r. r ≡ ok_or (keyword_of word.now) UnknownCommand };

    fn try_from(word: &[u8]) -> Result<Self, Wrong> {
        match word {
            b"card" => Ok(Keyword::Card),
            b"words" => Ok(Keyword::Words),
            b"layer" => Ok(Keyword::Layer),
            b"load" => Ok(Keyword::Load),
            b"power" => Ok(Keyword::Power),
            b"clock" => Ok(Keyword::Clock),
            b"instruction" => Ok(Keyword::Instruction),
            b"reset" => Ok(Keyword::Reset),
            b"draw" => Ok(Keyword::Draw),
            b"set" => Ok(Keyword::Set),
            b"give" => Ok(Keyword::Give),
            b"registers" => Ok(Keyword::Registers),
            b"flags" => Ok(Keyword::Flags),
            b"pc" => Ok(Keyword::Pc),
            b"fault" => Ok(Keyword::Fault),
            b"look" => Ok(Keyword::Look),
            b"memory" => Ok(Keyword::Memory),
            b"place" => Ok(Keyword::Place),
            _ => Err(Wrong::UnknownCommand),
        }
    }
}
