// A layer over any card. It keeps its transfer in a port of its own: begin asks the card below how long it would wait, and the end of
// the transfer looks and places below. So between calls the card below has no transfer, which its type says.
ghost use Rattle.std.specs.Prelude.{◌≡◌, ◌≤◌, ◌+◌, true, false, None, Ok, OnErr};
ghost use Rattle.layer.specs.declared.kind.Kind.{Kind};
ghost use Rattle.layer.specs.Kinds.{within, added, address_under, guards};
ghost use Rattle.card.specs.Meaning.{Begun, Placed, Polled, idle};
ghost use Rattle.layer.specs.Waits.{waits_of, refuses, asks_below};
ghost use Rattle.layer.specs.Laws.{Laws};
ghost use Rattle.layer.specs.Shown.{layered, raised};

use super::kind::Kind;
use card::{Card, Cell, Cells, Direction, End, Origin, Port, Request, Transfer, finish};
use refusal::Refusal;

#[derive(Drop)]
pub struct Layer<C: Card> {
    kind: Kind,
    below: C,
    port: Port,
    ghost idle_below: { (C.Cells.meaning below).transfer ≡ None },
}

// An origin from below.
fn raise(origin: Origin) -> Origin
    ensures { result ≡ raised origin }
{
    Origin {
        layer: origin.layer.saturating_add(1),
        ..origin
    }
}

impl<C: Card> Cells for Layer<C> {
    ghost meaning = { λ l. layered l.kind (C.Cells.meaning l.below) l.port.transfer };

    ghost bounded = { λ l. within l.kind (C.Cells.meaning l.below).patience (C.Cells.bounded l.below) };

    ghost Frame = { Kind × C.Cells.Frame };

    ghost frame = { λ l. (l.kind, C.Cells.frame l.below) };

    fn look(&self, address: u32) -> Cell {
        let origin = Origin { address, layer: 0 };
        let Some(below) = self.kind.address_below(address) else {
            return Cell::Absent(origin);
        };
        match self.below.look(below) {
            Cell::Absent(origin) => Cell::Absent(raise(origin)),
            Cell::Fixed(word, origin) => Cell::Fixed(word, raise(origin)),
            Cell::Open(word) if self.kind.guards(address) => Cell::Fixed(word, origin),
            Cell::Open(word) => Cell::Open(word),
        }
    }

    fn patience(&self) -> u16 {
        let below = self.below.patience();
        below + self.kind.added(below)
    }

    fn place(&mut self, address: u32, word: u32) -> Result<(), Refusal>
        ensures placed { Placed (layered self.old.kind (C.Cells.meaning self.old.below) self.old.port.transfer) address word
            result (layered self.new.kind (C.Cells.meaning self.new.below) self.new.port.transfer) }
        ensures kind { self.new.kind ≡ self.old.kind }
        ensures frame { C.Cells.frame self.new.below ≡ C.Cells.frame self.old.below }
        ensures guarded { guards self.old.kind address ≡ true → self.new.below ≡ self.old.below }
        ensures absent { address_under self.old.kind address ≡ None → self.new.below ≡ self.old.below }
    {
        match self.kind.address_below(address) {
            Some(below) if !self.kind.guards(address) => self.below.place(below, word),
            _ => Err(Refusal::NotOpen),
        }
    }
}

impl<C: Card> Card for Layer<C> {
    ghost choice = { λ l q. waits_of l.kind (C.Cells.meaning l.below) (C.choice l.below) q };

    fn transfer(&self) -> Option<Transfer> {
        self.port.transfer()
    }

    // A transfer that is refused here is not asked for below.
    #[inline(always)]
    fn begin(&mut self, request: Request) -> Result<u16, Refusal>
        ensures begun { Begun
            (waits_of self.old.kind (C.Cells.meaning self.old.below) (C.choice self.old.below) request)
            (layered self.old.kind (C.Cells.meaning self.old.below) self.old.port.transfer) request
            result (layered self.new.kind (C.Cells.meaning self.new.below) self.new.port.transfer) }
        ensures kind { self.new.kind ≡ self.old.kind }
        ensures frame { C.Cells.frame self.new.below ≡ C.Cells.frame self.old.below }
        ensures unasked { asks_below self.old.port.transfer self.old.kind (C.Cells.meaning self.old.below).map request ≡ false
            → self.new.below ≡ self.old.below }
    {
        if self.port.transfer().is_some() {
            return Err(Refusal::Transfer);
        }
        let waits = self.waits(request);
        self.port.begin(request, waits)
    }

    #[inline(always)]
    fn poll(&mut self) -> Result<Option<End>, Refusal>
        ensures polled { Polled (layered self.old.kind (C.Cells.meaning self.old.below) self.old.port.transfer)
            result (layered self.new.kind (C.Cells.meaning self.new.below) self.new.port.transfer) }
        ensures kind { self.new.kind ≡ self.old.kind }
        ensures frame { C.Cells.frame self.new.below ≡ C.Cells.frame self.old.below }
        ensures waits { result ≡ Ok None → self.new.below ≡ self.old.below }
        ensures refused { OnErr result (self.new.below ≡ self.old.below) }
    {
        let Some(request) = self.port.poll()? else {
            return Ok(None);
        };
        Ok(Some(finish(self, request)))
    }

    fn cancel(&mut self)
        ensures cancelled { layered self.new.kind (C.Cells.meaning self.new.below) self.new.port.transfer
            ≡ idle (layered self.old.kind (C.Cells.meaning self.old.below) self.old.port.transfer) }
        ensures kind { self.new.kind ≡ self.old.kind }
        ensures frame { C.Cells.frame self.new.below ≡ C.Cells.frame self.old.below }
        ensures below { self.new.below ≡ self.old.below }
    {
        self.port.cancel();
    }
}

impl<C: Card> Layer<C> {
    // A layer over a card, whose transfer it cancels.
    #[tactic(auto, using(crate::proofs::Lawful::lawful))]
    pub fn new(kind: Kind, mut below: C) -> Layer<C>
        ensures laws { Laws }
        ensures kind { result.kind ≡ kind }
        ensures below { C.Cells.meaning result.below ≡ idle (C.Cells.meaning below) }
        ensures made { layered result.kind (C.Cells.meaning result.below) result.port.transfer
            ≡ layered kind (C.Cells.meaning below) None }
        ensures frame { C.Cells.frame result.below ≡ C.Cells.frame below }
    {
        below.cancel();
        Layer {
            kind,
            below,
            port: Port::idle(),
        }
    }

    // How long the card below would wait, and what the layer adds; no waits where the layer itself refuses.
    #[inline(always)]
    fn waits(&mut self, request: Request) -> u16
        ensures chosen { result ≡ waits_of self.old.kind (C.Cells.meaning self.old.below) (C.choice self.old.below) request }
        ensures within { result ≤ (C.Cells.meaning self.old.below).patience + added self.old.kind (C.Cells.meaning self.old.below).patience }
        ensures kind { self.new.kind ≡ self.old.kind }
        ensures port { self.new.port ≡ self.old.port }
        ensures below { C.Cells.meaning self.new.below ≡ C.Cells.meaning self.old.below }
        ensures frame { C.Cells.frame self.new.below ≡ C.Cells.frame self.old.below }
        ensures unasked { refuses self.old.kind (C.Cells.meaning self.old.below).map request ≡ true
            → self.new.below ≡ self.old.below }
    {
        let Some(address) = self.kind.address_below(request.address) else {
            return 0;
        };
        if self.kind.guards(request.address)
            && let Direction::Write(_) = request.direction
            && let Cell::Open(_) = self.below.look(address)
        {
            return 0;
        }
        let added = self.kind.added(self.below.patience());
        let waits = self.below.begin(Request { address, ..request }).unwrap();
        self.below.cancel();
        waits + added
    }
}
