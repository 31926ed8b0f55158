//! The operators, and the lines of the grammar that they stand on.
ghost use Rattle.std.specs.Prelude.{◌≡◌, Some};
ghost use Rattle.model_tree.specs.Grammar.{operator_line as number_of};
ghost use Rattle.model_lang.specs.Lines.{line_number, tighter_of};
ghost use Rattle.model_lang.specs.Answer.{Finds};
ghost use Rattle.model_lang.specs.Reader.{operator_of, unary_of_symbol, sign_at as read_sign, operator_at as read_operator, of_line, turns_of};

use model_tokens::{Symbol, Token};
use model_tree::{BinaryOp, UnaryOp};

/// A line of the grammar whose operators have two sides, from the tightest.
#[derive(Clone, Copy, Debug, PartialEq, Eq)]
pub enum Line {
    Term,
    Sum,
    Relation,
    And,
    Or,
}

impl Line {
    /// The next tighter line, if it is one of these.
    pub fn tighter(self) -> Option<Line>
        ensures { result ≡ tighter_of self }
    {
        match self {
            Line::Term => None,
            Line::Sum => Some(Line::Term),
            Line::Relation => Some(Line::Sum),
            Line::And => Some(Line::Relation),
            Line::Or => Some(Line::And),
        }
    }

    /// How many operators of the line may stand one behind the other among so many tokens. Relations do not group.
    pub fn turns(self, tokens: usize) -> usize
        ensures { result ≡ turns_of (line_number self) tokens }
    {
        match self {
            Line::Relation => 1,
            _ => tokens,
        }
    }
}

/// The line on which an operator stands.
fn line_of(op: BinaryOp) -> Line
    ensures { line_number result ≡ number_of op }
{
    match op {
        BinaryOp::Or => Line::Or,
        BinaryOp::And => Line::And,
        BinaryOp::Same
        | BinaryOp::Differs
        | BinaryOp::Less
        | BinaryOp::AtMost
        | BinaryOp::Greater
        | BinaryOp::AtLeast => Line::Relation,
        BinaryOp::Plus | BinaryOp::Minus => Line::Sum,
        BinaryOp::Times | BinaryOp::Divide | BinaryOp::Rest => Line::Term,
    }
}

fn operator_of(symbol: Symbol) -> Option<BinaryOp>
    ensures { result ≡ operator_of symbol }
{
    match symbol {
        Symbol::Or => Some(BinaryOp::Or),
        Symbol::And => Some(BinaryOp::And),
        Symbol::Same => Some(BinaryOp::Same),
        Symbol::Differs => Some(BinaryOp::Differs),
        Symbol::Less => Some(BinaryOp::Less),
        Symbol::AtMost => Some(BinaryOp::AtMost),
        Symbol::Greater => Some(BinaryOp::Greater),
        Symbol::AtLeast => Some(BinaryOp::AtLeast),
        Symbol::Plus => Some(BinaryOp::Plus),
        Symbol::Minus => Some(BinaryOp::Minus),
        Symbol::Times => Some(BinaryOp::Times),
        Symbol::Divide => Some(BinaryOp::Divide),
        Symbol::Rest => Some(BinaryOp::Rest),
        _ => None,
    }
}

fn sign_of(symbol: Symbol) -> Option<UnaryOp>
    ensures { result ≡ unary_of_symbol symbol }
{
    match symbol {
        Symbol::Minus => Some(UnaryOp::Minus),
        Symbol::Not => Some(UnaryOp::Not),
        _ => None,
    }
}

/// The sign at the front, and the tokens behind it.
pub fn sign_at(tokens: &[Token]) -> Option<(UnaryOp, &[Token])>
    ensures { Finds result (read_sign tokens.now) }
{
    match tokens.split_first() {
        Some((Token::Symbol(symbol), rest)) => Some((sign_of(*symbol)?, rest)),
        _ => None,
    }
}

/// The operator of this line at the front, and the tokens behind it.
pub fn operator_at(line: Line, tokens: &[Token]) -> Option<(BinaryOp, &[Token])>
    ensures { Finds result (read_operator (line_number line) tokens.now) }
{
    match tokens.split_first() {
        Some((Token::Symbol(symbol), rest)) => Some((of_line(line, operator_of(*symbol)?)?, rest)),
        _ => None,
    }
}

fn of_line(line: Line, op: BinaryOp) -> Option<BinaryOp>
    ensures { result ≡ of_line (line_number line) (Some op) }
{
    if line_of(op) == line { Some(op) } else { None }
}
