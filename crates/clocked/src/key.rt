// The service key of a processor. It cannot be let go: a draw makes it, and only giving it back takes it.
use refusal::Refusal;

pub struct Key {
    // the number of the axis that it was drawn from
    pub(crate) axis: u32,
}

// A give back that was refused: the key stays with the caller.
pub struct NotTaken {
    pub key: Key,
    pub refusal: Refusal,
}
