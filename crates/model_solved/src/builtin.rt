//! The builtins of the language.

/// A builtin, named for its word in the language.
#[derive(Clone, Copy, Debug, PartialEq, Eq)]
pub enum Builtin {
    /// `now()`
    Now,
    /// `random(a)`
    Random,
    /// `viewCount()`
    ViewCount,
    /// `views()`
    Views,
    /// `sessionId()`
    SessionId,
    /// `known(a)`
    Known,
    /// `beKnown(a)`
    BeKnown,
    /// `exists(a)`
    Exists,
    /// `destroy(a)`
    Destroy,
    /// `publish(a, b, c)`
    Publish,
    /// `subscribe(a, b, c)`
    Subscribe,
    /// `unsubscribe(a, b, c)`
    Unsubscribe,
    /// `cancel(a)`
    Cancel,
    /// `persist(a)`
    Persist,
    /// `length(a)`
    Length,
    /// `at(a, b)`
    At,
    /// `put(a, b, c)`
    Put,
    /// `push(a, b)`
    Push,
    /// `slice(a, b, c)`
    Slice,
    /// `concat(a, b)`
    Concat,
    /// `text(a)`
    Text,
    /// `number(a)`
    Number,
    /// `compare(a, b)`
    Compare,
}
