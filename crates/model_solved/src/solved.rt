//! Methods with each name of a field, a parameter or a local resolved to a slot, and each class to its number.

use crate::builtin::Builtin;
use model_tree::{BinaryOp, UnaryOp};
use tea_base::Text;

/// A method.
#[derive(Debug, Drop)]
pub struct Solved {
    /// The number of its parameters, which have the first slots, in order.
    pub params: u32,
    /// The number of its slots: the greatest number of names that are in scope at a place.
    pub slots: usize,
    pub body: Vec<SolvedStmt>,
}

/// A statement. The slot of a local is its place among the names in scope, from 0.
#[derive(Debug, Drop)]
pub enum SolvedStmt {
    /// `let name = value;`
    Let {
        slot: usize,
        value: SolvedExpr,
    },
    /// `name = value;`
    Assign {
        slot: usize,
        value: SolvedExpr,
    },
    /// `this.name = value;`
    SetField {
        slot: u32,
        value: SolvedExpr,
    },
    /// `if (test) { yes }`, and `else { no }` where there is one, be it empty.
    If {
        test: SolvedExpr,
        yes: Vec<SolvedStmt>,
        no: Option<Vec<SolvedStmt>>,
    },
    /// `while (test) { body }`
    While {
        test: SolvedExpr,
        body: Vec<SolvedStmt>,
    },
    /// `return value;`
    Return {
        value: SolvedExpr,
    },
    /// `value;`
    Do {
        value: SolvedExpr,
    },
}

/// An expression.
#[derive(Debug, Drop)]
pub enum SolvedExpr {
    Nil,
    Bool(bool),
    Int(i64),
    Text(Text),
    This,
    /// The name in scope that has this place among those, from 0.
    Local {
        slot: usize,
    },
    /// The field of the class that has this place among its fields, from 0.
    Field {
        slot: u32,
    },
    /// `[items]`
    List {
        items: Vec<SolvedExpr>,
    },
    Unary {
        op: UnaryOp,
        of: Box<SolvedExpr>,
    },
    Binary {
        op: BinaryOp,
        left: Box<SolvedExpr>,
        right: Box<SolvedExpr>,
    },
    /// `name(args)`
    Builtin {
        name: Builtin,
        args: Vec<SolvedExpr>,
    },
    /// `object.name(args)`
    Call {
        object: Box<SolvedExpr>,
        name: Text,
        args: Vec<SolvedExpr>,
    },
    /// `object.future(delay).name(args)`
    Future {
        object: Box<SolvedExpr>,
        delay: Box<SolvedExpr>,
        name: Text,
        args: Vec<SolvedExpr>,
    },
    /// `create(class, options)`
    Create {
        class: u16,
        options: Box<SolvedExpr>,
    },
}
