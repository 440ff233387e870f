// The three kinds of layer, and what each makes of an address, of a cell and of a patience.
ghost use Rattle.std.specs.Prelude.{◌≡◌};
ghost use Rattle.layer.specs.Kinds.{address_under, guards, added};

#[derive(Clone, Copy, Debug)]
pub enum Kind {
    // absent below the base, and from there on the cells from address 0 below on
    Offset(u32),
    // open cells from the first to the last address, both included, are fixed
    Guard(u32, u32),
    // so many waits more for every transfer
    Slow(u8),
}

impl Kind {
    // The address below, if the layer has one for this address.
    pub(crate) fn address_below(self, address: u32) -> Option<u32>
        ensures { result ≡ address_under self address }
    {
        match self {
            Kind::Offset(base) => address.checked_sub(base),
            Kind::Guard(_, _) | Kind::Slow(_) => Some(address),
        }
    }

    // Whether an open cell at the address is shown as a fixed one.
    pub(crate) fn guards(self, address: u32) -> bool
        ensures { result ≡ guards self address }
    {
        match self {
            Kind::Guard(first, last) => (first..=last).contains(&address),
            Kind::Offset(_) | Kind::Slow(_) => false,
        }
    }

    // The waits that the layer adds over a card of this patience, so that the sum stays within 4,096.
    pub(crate) fn added(self, patience: u16) -> u16
        ensures { result ≡ added self patience }
    {
        match self {
            Kind::Slow(waits) => u16::from(waits).min(4096u16.saturating_sub(patience)),
            Kind::Offset(_) | Kind::Guard(_, _) => 0,
        }
    }
}
