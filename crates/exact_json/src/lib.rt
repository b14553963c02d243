//! JSON (RFC 8259) with exact decimals.
//!
//! Promises: what is read is the value that the bytes are, or their first fault with its byte; what is
//! printed is the text of the value, and is read as the same value again. Definitions stand in `specs/`:
//! parsing, tokens, decimals, numbers, texts, values, printed. Stands on `gh_base`. `Cursor` and `Stop`,
//! with `specs/Parsing.antt`, serve other grammars too.
#![tactic(auto)]

mod cursor;
mod fault;
mod number;
mod printer;
mod reader;
mod stop;
mod texts;
mod tokens;
mod value;

pub use cursor::Cursor;
pub use fault::JsonFault;
pub use gh_base::{JsonKind, Text};
pub use printer::print;
pub use reader::read;
pub use stop::Stop;
pub use value::{Decimal, Json, JsonList, Member, MemberList};
