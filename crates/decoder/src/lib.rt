// A UTF-8 decoder that takes a stream byte by byte.

#![tactic(auto)]

mod character;
mod decoder;
mod laws;
mod pieces;
mod width;

pub use character::{Character, Given, REPLACEMENT};
pub use decoder::Decoder;
pub use laws::{decoded_text_is_well_formed, rule_stands, well_formed_text_is_kept};
pub use pieces::decode_pieces;
