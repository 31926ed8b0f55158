//! The laws of a connection over its session.
ghost use Rattle.std.specs.Prelude.{◌≡◌, ◌≤◌, ℕ, List, length, Option, Some};
ghost use Rattle.tea_base.specs.declared.entry.Entry.{Entry};
ghost use Rattle.tea_base.specs.Legal.{IsLegal};
ghost use Rattle.reflector_core.specs.PlainSession.{PlainSession, IsSoundSession};
ghost use Rattle.reflector_core.specs.Answer.{answer};
ghost use Rattle.reflector_core.specs.Growth.{GrowsTo};
ghost use Rattle.reflector_core.specs.declared.request.Refusal.{Refusal};
ghost use Rattle.reflector_core.specs.declared.request.Request.{Request};
ghost use Rattle.reflector_core.specs.declared.request.Request.TheVariants.{Join, Pull};
ghost use Rattle.reflector_core.specs.declared.request.Reply.TheVariants.{Batch, Joined, Refused};
ghost use Rattle.wire_frames.specs.declared.frame.ClientFrame.{ClientFrame};
ghost use Rattle.wire_frames.specs.declared.start.Base.{Base};
ghost use Rattle.wire_frames.specs.declared.start.Want.{Want};
ghost use Rattle.wire_frames.specs.Served.{Place, Streams, place_after_all};
ghost use Rattle.wire_frames.specs.Spelling.{client_tag};
ghost use Rattle.join_sync.specs.Answers.{IsReplyTo, answer_frame, first_cursor};
ghost use Rattle.join_sync.specs.Batches.{ComeAfter, IsBatchAfter, next_cursor, next_frames};
ghost use Rattle.join_sync.specs.Refusals.{refused_frame};
ghost use Rattle.join_sync.specs.Requests.{IsOfFrame, act_on};
ghost use Rattle.join_sync.specs.Standing.{StandsAt};
ghost use Rattle.join_sync.specs.declared.act.Act.TheVariants.{Call};
ghost use Rattle.join_sync.specs.declared.cursor.Cursor.{Cursor};

/// What a session replies is what the calls of a connection ask for: a reply to the request, a request of a frame, and a batch of what
/// stands behind the seq that was named, if the log has it. A refusal names the frame whose request it refuses.
pub fn replies_fit()
    ensures replies { (s : PlainSession) (request : Request) → IsReplyTo request (answer s request).reply }
    ensures frames { (cursor : Cursor) (frame : ClientFrame) (now : ℕ) (request : Request)
        → act_on cursor frame now ≡ Call request → IsOfFrame request }
    ensures batches { (s : PlainSession) (after limit : ℕ) → IsLegal s.log → after ≤ length s.log
        → IsBatchAfter after (answer s (Pull after limit)).reply }
    ensures batch { (s : PlainSession) (after limit : ℕ) (entries : List Entry) (tick : Option ℕ) → IsLegal s.log
        → (answer s (Pull after limit)).reply ≡ Batch entries tick → ComeAfter after entries }
    ensures refusals { (cursor : Cursor) (frame : ClientFrame) (now : ℕ) (request : Request) (refusal : Refusal)
        → act_on cursor frame now ≡ Call request
        → answer_frame request (Refused refusal) ≡ Some (refused_frame (client_tag frame) refusal) }
{}

/// A connection is sent the log in order. Where it joined, its cursor stands at the place from which its entries come, and it stands there
/// whatever others ask. Of a batch it is sent each entry in its place, and a tick only behind the entries up to it and above each tick
/// before, and then its cursor stands behind them.
pub fn batches_stream()
    ensures joined { (s : PlainSession) (view now : ℕ) (want : Want) (seq time last from : ℕ) (base : Option Base)
        (cursor : Cursor)
        → (answer s (Join view now want)).reply ≡ Joined seq time last from base
        → first_cursor view (Joined seq time last from base) ≡ Some cursor
        → StandsAt (answer s (Join view now want)).session (record { seen = from; least = time }) cursor }
    ensures grows { (s new : PlainSession) (place : Place) (cursor : Cursor) → GrowsTo s new → StandsAt s place cursor
        → StandsAt new place cursor }
    ensures streams { (s : PlainSession) (place : Place) (cursor : Cursor) (limit : ℕ) → IsSoundSession s
        → StandsAt s place cursor
        → Streams s.log place (next_frames cursor (answer s (Pull cursor.after limit)).reply) }
    ensures stands { (s : PlainSession) (place : Place) (cursor : Cursor) (limit : ℕ) → IsSoundSession s
        → StandsAt s place cursor
        → StandsAt s (place_after_all place (next_frames cursor (answer s (Pull cursor.after limit)).reply))
        (next_cursor cursor (answer s (Pull cursor.after limit)).reply) }
{}
