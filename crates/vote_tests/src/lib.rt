//! Tests of a book of votes: each answer to a vote, and a vote for which memory runs out. A test makes the book, and
//! functions of references vote and look: so its proof is short. Without its tests this library is empty.
#![tactic(auto)]

#[cfg(test)]
mod books;
