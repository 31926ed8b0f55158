//! What is bounded in a program.

/// What is bounded in a program, in the order in which it is looked at.
#[derive(Clone, Copy, Debug, PartialEq, Eq)]
pub enum Bound {
    /// Bytes of the text: at most 65,536.
    Bytes,
    /// Brackets that are open at a token: at most 32.
    Brackets,
    /// Operators since the last `,`, `;`, `{` or `}`: at most 32.
    Operators,
    /// Classes: at most 256.
    Classes,
    /// Fields of a class: at most 256.
    Fields,
    /// Methods of a class: at most 256.
    Methods,
    /// Parameters of a method, and arguments of a call or a future: at most 16.
    Parameters,
}
