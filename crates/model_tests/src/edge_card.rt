// A card with a cell at every address: the eight first and the eight last addresses are open, all others hold a fixed
// zero. Its transfers wait by their address, up to three times. It can stand for a card under layers of its own, whose transfers all
// wait so many times more and whose origins have so many layers above them.
ghost use Rattle.std.specs.Prelude.{◌≡◌, ℕ, min};
ghost use Rattle.model_tests.specs.Edge.{edge_meaning, edge_choice, patient};

use card::{Card, Cell, Cells, End, Origin, Port, Request, Transfer, finish};
use refusal::Refusal;

#[derive(Drop)]
pub struct EdgeCard {
    first: [u32; 8],
    last: [u32; 8],
    // taken as at most 4,093, so that the patience stays within its bound
    more: u16,
    layers: u8,
    port: Port,
}

impl EdgeCard {
    pub fn new(first: [u32; 8], last: [u32; 8]) -> EdgeCard {
        EdgeCard {
            first,
            last,
            more: 0,
            layers: 0,
            port: Port::idle(),
        }
    }

    // Zeros, under so many layers that add so many waits.
    pub fn under(layers: u8, more: u16) -> EdgeCard {
        EdgeCard {
            more,
            layers,
            ..EdgeCard::new([0; 8], [0; 8])
        }
    }

    fn more(&self) -> u16
        ensures { result ≡ min self.now.more 4093 }
    {
        self.more.min(4093)
    }
}

impl Cells for EdgeCard {
    ghost meaning = { λ c. edge_meaning c.first c.last c.layers c.more c.port.transfer };

    ghost bounded = { λ c. patient c.more };

    ghost Frame = { ℕ × ℕ };

    ghost frame = { λ c. (c.layers, c.more) };

    fn look(&self, address: u32) -> Cell {
        if address < 8 {
            Cell::Open(self.first[address as usize])
        } else if address >= 0xffff_fff8 {
            Cell::Open(self.last[(address - 0xffff_fff8) as usize])
        } else {
            Cell::Fixed(
                0,
                Origin {
                    address,
                    layer: self.layers,
                },
            )
        }
    }

    fn patience(&self) -> u16 {
        self.more() + 3
    }

    fn place(&mut self, address: u32, word: u32) -> Result<(), Refusal> {
        if address < 8 {
            self.first[address as usize] = word;
            Ok(())
        } else if address >= 0xffff_fff8 {
            self.last[(address - 0xffff_fff8) as usize] = word;
            Ok(())
        } else {
            Err(Refusal::NotOpen)
        }
    }
}

impl Card for EdgeCard {
    ghost choice = { λ c q. edge_choice c.more q.address };

    fn transfer(&self) -> Option<Transfer> {
        self.port.transfer()
    }

    fn begin(&mut self, request: Request) -> Result<u16, Refusal> {
        let waits = self.more() + (request.address % 4) as u16;
        self.port.begin(request, waits)
    }

    fn poll(&mut self) -> Result<Option<End>, Refusal> {
        let Some(request) = self.port.poll()? else {
            return Ok(None);
        };
        Ok(Some(finish(self, request)))
    }

    fn cancel(&mut self) {
        self.port.cancel();
    }
}
