//! The readers of texts and characters, for who says why a text denotes no module within the limits.

pub use crate::characters::{is_space, is_word_char};
pub use crate::fault::ReadError;
pub use crate::parser::read_text;
