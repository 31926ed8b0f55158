//! Tokens of a program's text, as they are spelled.
use crate::place::Span;
use model_tokens::{Symbol, Token, Word};

/// How a reserved word is spelled.
fn word_spelling(word: Word) -> &'static str {
    match word {
        Word::Class => "class",
        Word::Field => "field",
        Word::Let => "let",
        Word::If => "if",
        Word::Else => "else",
        Word::While => "while",
        Word::Return => "return",
        Word::This => "this",
        Word::Nil => "nil",
        Word::True => "true",
        Word::False => "false",
        Word::Create => "create",
        Word::Future => "future",
    }
}

/// How a symbol is spelled.
fn symbol_spelling(symbol: Symbol) -> &'static str {
    match symbol {
        Symbol::OpenBrace => "{",
        Symbol::CloseBrace => "}",
        Symbol::OpenRound => "(",
        Symbol::CloseRound => ")",
        Symbol::OpenSquare => "[",
        Symbol::CloseSquare => "]",
        Symbol::Comma => ",",
        Symbol::Semicolon => ";",
        Symbol::Dot => ".",
        Symbol::Assign => "=",
        Symbol::Same => "==",
        Symbol::Differs => "!=",
        Symbol::Less => "<",
        Symbol::AtMost => "<=",
        Symbol::Greater => ">",
        Symbol::AtLeast => ">=",
        Symbol::Plus => "+",
        Symbol::Minus => "-",
        Symbol::Times => "*",
        Symbol::Divide => "/",
        Symbol::Rest => "%",
        Symbol::Not => "!",
        Symbol::And => "&&",
        Symbol::Or => "||",
    }
}

/// How a token is spelled; of a number and of a text literal `0` and `"`, and nothing of no token.
pub fn spelling(token: Option<&Token>) -> &str {
    match token {
        None => "",
        Some(Token::Name(name)) => name.as_str(),
        Some(Token::ClassName(name)) => name.as_str(),
        Some(Token::Number(_)) => "0",
        Some(Token::Text(_)) => "\"",
        Some(Token::Word(word)) => word_spelling(*word),
        Some(Token::Symbol(symbol)) => symbol_spelling(*symbol),
    }
}

/// The token that is so many before one of a number.
pub fn back(tokens: &[Token], number: usize, count: usize) -> Option<&Token> {
    if number < count {
        return None;
    }
    tokens.get(number.saturating_sub(count))
}

/// Whether a token is a name, of a class or of anything else.
pub fn is_name(token: Option<&Token>) -> bool {
    matches!(token, Some(Token::Name(_) | Token::ClassName(_)))
}

/// Whether an expression may end with a token.
pub fn ends_expression(token: Option<&Token>) -> bool {
    match token {
        Some(Token::Name(_) | Token::Number(_) | Token::Text(_)) => true,
        _ => matches!(
            spelling(token),
            ")" | "]" | "this" | "nil" | "true" | "false"
        ),
    }
}

/// Whether a relation is between two expressions.
pub fn is_relation(spelling: &str) -> bool {
    matches!(spelling, "==" | "!=" | "<" | "<=" | ">" | ">=")
}

/// Whether a token is an operator that stands between two expressions.
pub fn is_operator(spelling: &str) -> bool {
    is_relation(spelling) || matches!(spelling, "+" | "-" | "*" | "/" | "%" | "&&" | "||")
}

/// The token that begins at a place of a text, as a part of it.
pub fn token_span(text: &[u8], at: usize) -> Span {
    let rest = text.get(at..).unwrap_or_default();
    let len = match rest.first() {
        Some(b'"') => literal_length(rest),
        Some(byte) if is_of_word(*byte) => word_length(rest),
        Some(b'=' | b'!' | b'<' | b'>' | b'&' | b'|') => symbol_length(rest),
        _ => 1,
    };
    Span::new(at, len)
}

fn is_of_word(byte: u8) -> bool {
    byte.is_ascii_alphanumeric() || byte == b'_'
}

fn word_length(text: &[u8]) -> usize {
    let mut length: usize = 0;
    for byte in text {
        if !is_of_word(*byte) {
            break;
        }
        length = length.saturating_add(1);
    }
    length
}

fn symbol_length(text: &[u8]) -> usize {
    match text.get(1) {
        Some(b'=' | b'&' | b'|') => 2,
        _ => 1,
    }
}

/// How long a text literal is, with its quotes, or up to the end of its line.
fn literal_length(text: &[u8]) -> usize {
    let mut is_escaped = false;
    for (place, byte) in text.iter().enumerate() {
        if *byte == b'\n' {
            return place;
        }
        if *byte == b'"' && !is_escaped && place > 0 {
            return place.saturating_add(1);
        }
        is_escaped = *byte == b'\\' && !is_escaped;
    }
    text.len()
}
