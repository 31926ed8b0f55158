//! What is a vote.
ghost use Rattle.std.specs.Prelude.{◌≡◌, ◌<◌, ◌^◌, Some};
ghost use Rattle.tea_base.specs.declared.entry.Entry.{Entry};
ghost use Rattle.vote_book.specs.VoteBook.{Ballot};
ghost use Rattle.command_votes.specs.VoteRead.{vote_of};
ghost use Rattle.command_votes.specs.VoteForm.{HasBytes, IsVote};

/// An entry is read as a vote exactly where it is one: an Event whose payload is the one spelling of a vote on an entry
/// before it.
pub fn votes_have_one_form()
    ensures read { (entry : Entry) (vote : Ballot) → entry.seq < 2 ^ 32 → IsVote entry vote →
        vote_of entry ≡ Some vote }
    ensures only { (entry : Entry) (vote : Ballot) → HasBytes entry.what → vote_of entry ≡ Some vote →
        IsVote entry vote }
{}
