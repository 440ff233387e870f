// Program images: checking, segments, and placing on a card.
#![tactic(auto)]

pub mod image;
pub mod placing;
pub mod segment;

pub use image::Image;
pub use placing::NotPlaced;
pub use segment::Segment;
