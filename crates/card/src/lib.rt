// Memory cards: what a card means, the interface that every card keeps, and the two cards that lie over lent words.
#![tactic(auto)]

pub mod access;
pub mod bottom;
pub mod card;
pub mod cell;
pub mod lent;
pub mod port;
pub mod transfer;

pub use access::finish;
pub use bottom::{BootCard, BottomCard, Memory, WordCard};
pub use card::{Card, Cells};
pub use cell::{AccessFault, Cause, Cell, Origin};
pub use port::Port;
pub use transfer::{Direction, End, Request, Transfer};
