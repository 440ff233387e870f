// Layers: cards made of any card below.
#![tactic(auto)]

pub mod kind;
pub mod layer;

pub use kind::Kind;
pub use layer::Layer;
