// Why an image is not placed.
ghost use Rattle.std.specs.Prelude.{◌≡◌};
ghost use Rattle.refusal.specs.declared.Refusal.TheVariants.{NotOpen};

use refusal::Refusal;

#[derive(Clone, Copy, PartialEq, Eq, Debug)]
pub struct NotPlaced {
    // the lowest address of the image that is not open
    pub address: u32,
}

impl From<NotPlaced> for Refusal {
    ghost from_gives = { λ _ refusal. refusal ≡ NotOpen };

    fn from(_: NotPlaced) -> Refusal {
        Refusal::NotOpen
    }
}
