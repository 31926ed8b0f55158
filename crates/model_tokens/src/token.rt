//! What a text is divided into.
use tea_base::{List, Text};

/// A token of a program's text.
#[derive(Debug, Drop)]
pub enum Token {
    /// A name of at most 64 bytes: it begins with a lower-case letter or `_`, and is no reserved word.
    Name(Text),
    /// The name of a class, of at most 64 bytes: it begins with an upper-case letter.
    ClassName(Text),
    /// A number from 0 to 9,223,372,036,854,775,807.
    Number(i64),
    /// The characters of a text literal.
    Text(Text),
    Word(Word),
    Symbol(Symbol),
}

/// A reserved word.
#[derive(Clone, Copy, Debug, PartialEq, Eq)]
pub enum Word {
    Class,
    Field,
    Let,
    If,
    Else,
    While,
    Return,
    This,
    Nil,
    True,
    False,
    Create,
    Future,
}

/// A symbol of one or two bytes.
#[derive(Clone, Copy, Debug, PartialEq, Eq)]
pub enum Symbol {
    OpenBrace,
    CloseBrace,
    OpenRound,
    CloseRound,
    OpenSquare,
    CloseSquare,
    Comma,
    Semicolon,
    Dot,
    Assign,
    Same,
    Differs,
    Less,
    AtMost,
    Greater,
    AtLeast,
    Plus,
    Minus,
    Times,
    Divide,
    Rest,
    Not,
    And,
    Or,
}

/// Tokens in order.
pub type Tokens = List<Token>;
