// The port of a card: where its transfer is kept, from its begin to its end. Every card that takes transfers has one.
ghost use Rattle.std.specs.Prelude.{◌≡◌, None};
ghost use Rattle.card.specs.Ports.{begin_answer, after_begin, poll_answer, after_poll};

use super::transfer::{Request, Transfer};
use refusal::Refusal;

#[derive(Drop)]
pub struct Port {
    transfer: Option<Transfer>,
}

impl Port {
    // A port without a transfer.
    pub fn idle() -> Port
        ensures { result.transfer ≡ None }
    {
        Port { transfer: None }
    }

    // The transfer in being, or none.
    pub fn transfer(&self) -> Option<Transfer>
        ensures { result ≡ self.now.transfer }
    {
        self.transfer
    }

    // Makes a transfer of so many waits, and answers them; refused while one is in being.
    pub fn begin(&mut self, request: Request, waits: u16) -> Result<u16, Refusal>
        ensures answer { result ≡ begin_answer self.old.transfer waits }
        ensures transfer { self.new.transfer ≡ after_begin self.old.transfer request waits }
    {
        if self.transfer.is_some() {
            return Err(Refusal::Transfer);
        }
        self.transfer = Some(Transfer { request, waits });
        Ok(waits)
    }

    // Takes one wait off the transfer and answers none, or ends it and answers the request, which the card carries out then;
    // refused without a transfer.
    pub fn poll(&mut self) -> Result<Option<Request>, Refusal>
        ensures answer { result ≡ poll_answer self.old.transfer }
        ensures transfer { self.new.transfer ≡ after_poll self.old.transfer }
    {
        let transfer = self.transfer.take().ok_or(Refusal::Transfer)?;
        self.transfer = transfer.after_wait();
        Ok(if self.transfer.is_some() {
            None
        } else {
            Some(transfer.request)
        })
    }

    // Makes the transfer none.
    pub fn cancel(&mut self)
        ensures { self.new.transfer ≡ None }
    {
        self.transfer = None;
    }
}
