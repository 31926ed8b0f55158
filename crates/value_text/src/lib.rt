//! The text of a value of the modelling language, printed and read. Each value has one text, and no two values in bounds
//! have the same. Any value is printed; what is read is in bounds.
//!
//! | Kind | Text |
//! |---|---|
//! | Nil | `nil` |
//! | Bool | `false`, `true` |
//! | Int | a decimal number from -2^63 to 2^63 - 1, without leading zeros, and with `-` only before a number that is not 0 |
//! | Text | a text literal of the language, between two `"` |
//! | Ref | `#` and the number of the object in decimal |
//! | List | `[`, the texts of the items with a `,` between two, and `]` |
//!
//! No blank stands anywhere but in a literal.
#![tactic(auto)]

mod laws;
mod printing;
mod reading;

pub use laws::{print_and_read, texts_are_read};
pub use printing::{print_value, push_text, push_value};
pub use reading::read_value;
