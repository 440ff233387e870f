// A result that is latched and not yet stored.
#[derive(Clone, Copy, PartialEq, Eq, Debug)]
pub struct Pending {
    pub register: u8,
    pub word: u32,
}
