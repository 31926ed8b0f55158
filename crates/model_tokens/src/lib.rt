//! The tokens of a program's text.
//!
//! A text is blanks, comments and tokens, one behind the other, each as long as it can be. A blank is a space, a tab,
//! a CR or an LF. A comment is `//` and any bytes behind it, up to the next LF or the end.
//!
//! - A name begins with a lower-case ASCII letter or `_`, the name of a class with an upper-case one. Letters, digits
//!   and `_` follow, and it has at most 64 bytes. A name that is a reserved word is that word.
//! - A number is 0, or digits of which the first is not 0, up to 9,223,372,036,854,775,807. So `012` is 0 and 12.
//! - A text literal stands between two `"`. A quote and a backslash in it are spelled with a backslash before them, an
//!   LF as `\n`, another control (below 32, and 127) as `\x` and two lower-case hexadecimal digits, and every other
//!   character as its UTF-8. So each character has one spelling.
//! - A symbol has one or two bytes. `&` and `|` alone are none.
#![tactic(auto)]

mod bytes;
mod dividing;
mod literals;
mod names;
mod numbers;
mod pieces;
mod places;
mod symbols;
mod token;
mod writing;

pub use dividing::{TokenFault, one_division, tokens};
pub use literals::read_literal;
pub use places::{place_of_fault, place_of_token};
pub use token::{Symbol, Token, Tokens, Word};
pub use writing::push_literal;
