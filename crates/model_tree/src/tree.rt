//! Programs as trees. Round brackets leave no node.

use tea_base::Text;

/// A class: what its objects hold and do.
#[derive(Debug, Drop)]
pub struct Class {
    pub name: Text,
    pub fields: Vec<Text>,
    pub methods: Vec<Method>,
}

/// A method of a class.
#[derive(Debug, Drop)]
pub struct Method {
    pub name: Text,
    pub params: Vec<Text>,
    pub body: Vec<Stmt>,
}

/// A statement.
#[derive(Debug, Drop)]
pub enum Stmt {
    /// `let name = value;`
    Let {
        name: Text,
        value: Expr,
    },
    /// `name = value;`
    Assign {
        name: Text,
        value: Expr,
    },
    /// `this.name = value;`
    SetField {
        name: Text,
        value: Expr,
    },
    /// `if (test) { yes }`, and `else { no }` where there is one, be it empty.
    If {
        test: Expr,
        yes: Vec<Stmt>,
        no: Option<Vec<Stmt>>,
    },
    /// `while (test) { body }`
    While {
        test: Expr,
        body: Vec<Stmt>,
    },
    /// `return value;`
    Return {
        value: Expr,
    },
    /// `value;`
    Do {
        value: Expr,
    },
}

/// An expression.
#[derive(Debug, Drop)]
pub enum Expr {
    Nil,
    Bool(bool),
    /// A number from 0 to 9,223,372,036,854,775,807.
    Int(i64),
    Text(Text),
    This,
    Local {
        name: Text,
    },
    /// `this.name`
    Field {
        name: Text,
    },
    /// `[items]`
    List {
        items: Vec<Expr>,
    },
    Unary {
        op: UnaryOp,
        of: Box<Expr>,
    },
    Binary {
        op: BinaryOp,
        left: Box<Expr>,
        right: Box<Expr>,
    },
    /// `name(args)`
    Builtin {
        name: Text,
        args: Vec<Expr>,
    },
    /// `object.name(args)`
    Call {
        object: Box<Expr>,
        name: Text,
        args: Vec<Expr>,
    },
    /// `object.future(delay).name(args)`
    Future {
        object: Box<Expr>,
        delay: Box<Expr>,
        name: Text,
        args: Vec<Expr>,
    },
    /// `create(class, options)`
    Create {
        class: Text,
        options: Box<Expr>,
    },
}

/// An operator with one side.
#[derive(Clone, Copy, Debug, PartialEq, Eq)]
pub enum UnaryOp {
    Minus,
    Not,
}

/// An operator with two sides.
#[derive(Clone, Copy, Debug, PartialEq, Eq)]
pub enum BinaryOp {
    /// `||`
    Or,
    /// `&&`
    And,
    /// `==`
    Same,
    /// `!=`
    Differs,
    /// `<`
    Less,
    /// `<=`
    AtMost,
    /// `>`
    Greater,
    /// `>=`
    AtLeast,
    /// `+`
    Plus,
    /// `-`
    Minus,
    /// `*`
    Times,
    /// `/`
    Divide,
    /// `%`
    Rest,
}
