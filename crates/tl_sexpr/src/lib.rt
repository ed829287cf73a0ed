//! Bytes and the parenthesised forms that they spell.
#![tactic(auto)]

mod fault;
mod form;
mod laws;
mod read;
mod reader;
mod scan;
mod text;
mod token;

pub use fault::TextFault;
pub use form::{Form, Forms};
pub use laws::{offsets_rise, one_spelling, symbols_are_tokens};
pub use read::read_forms;
pub use text::Text;
