//! What is true of a system, whatever its worlds are.
ghost use Rattle.std.specs.Prelude.{◌≡◌, ◌≢◌, ◌≤◌, ◌+◌, ℕ, true, false, if◌then◌else◌, List, [], ◌∷◌, ◌++◌, Option, Some, None, Result, Ok, Err, All, slice_get};
ghost use Rattle.tea_base.specs.Legal.{IsLegal};
ghost use Rattle.tea_base.specs.Readings.{last_number};
ghost use Rattle.tea_base.specs.declared.entry.Entry.{Entry};
ghost use Rattle.tea_base.specs.declared.entry.SessionId.{SessionId};
ghost use Rattle.wire_frames.specs.declared.frame.ClientFrame.{ClientFrame};
ghost use Rattle.wire_frames.specs.declared.frame.ClientFrame.TheVariants.{Send};
ghost use Rattle.wire_frames.specs.declared.frame.ServerFrame.{ServerFrame};
ghost use Rattle.wire_frames.specs.Served.{Served};
ghost use Rattle.reflector_core.specs.PlainSession.{PlainSession, IsSoundSession};
ghost use Rattle.reflector_core.specs.Answer.{answer, send_event};
ghost use Rattle.reflector_core.specs.declared.request.Refusal.{Refusal};
ghost use Rattle.reflector_core.specs.declared.request.Refusal.TheVariants.{Stale};
ghost use Rattle.reflector_core.specs.declared.request.Reply.{Reply};
ghost use Rattle.reflector_core.specs.declared.request.Reply.TheVariants.{Left, Refused};
ghost use Rattle.reflector_core.specs.declared.request.Request.{Request};
ghost use Rattle.reflector_core.specs.declared.request.Request.TheVariants as request;
ghost use Rattle.join_sync.specs.Requests.{act_on};
ghost use Rattle.join_sync.specs.declared.act.Act.TheVariants.{Call};
ghost use Rattle.join_sync.specs.declared.cursor.Cursor.{Cursor};
ghost use Rattle.replica_plain.specs.Worlds.{Worlds, AreWorlds, replay_world};
ghost use Rattle.replica_plain.specs.Calls.{Publishes, publishes};
ghost use Rattle.replica_plain.specs.PlainReplica.{PlainReplica, published_count};
ghost use Rattle.replica_plain.specs.Taking.{taken, IsTimely};
ghost use Rattle.replica_plain.specs.declared.fault.PublishRefusal.{PublishRefusal};
ghost use Rattle.replica_plain.specs.declared.fault.PublishRefusal.TheVariants.{WantOfMemory};
ghost use Rattle.replica_plain.specs.declared.how.How.TheVariants.{Resume, Whole};
ghost use Rattle.replica_plain.specs.Following.{FollowsLog, IsHonestBase};
ghost use Rattle.system_plain.specs.System.{Client, Connection, System, view_client, with_client};
ghost use Rattle.system_plain.specs.Turn.{ask_told, join_told};
ghost use Rattle.system_plain.specs.Steps.{SystemStep, Pull, Receive, Restart, Take, Tick, after_step, may_publish, told_connection};
ghost use Rattle.system_plain.specs.Schedule.{AreTypedSteps, HasEventsOnce, IsExpected, IsTypedStep, ViewPayloads, IsNoSurprise, IsNotDiffers, IsSchedule, SpellWorlds, SpellsWorld, after_schedule, faults_from, faults_in, faults_of, next_fault, published_after, published_by, published_in, step_replies_from, replies_in, run_schedule, step_faults, step_replies};
ghost use Rattle.system_plain.specs.Traffic.{Traffics, traffics_after, traffics_by, traffics_in};
ghost use Rattle.system_plain.specs.ConnectionLine.{AreSoundTurns, AreTypedTurns, Hears, LineTurn, Others, Pulls, after_turn, after_turns, first_line, line_on, open_connection, with_line};

/// However joins, cuts, resends, restarts and snapshots fall: after every schedule the log is legal; each replica follows it and has
/// seen the entries of its time, and one that is at rest has the replay of the log to its time; two replicas of one time that are at
/// rest have equal snapshot bytes, and what is kept is honest; each view's Events are, by number and payload, the first of what it
/// published, each once; no replica counts an event as acknowledged that is not in the log; and no frame that a replica receives next
/// is a surprise to it. The next Send that the reflector takes is not answered Differs.
///
/// W is any type of worlds, O what their models publish. Two things are asked of a list of steps: each view is below 2^32, and each
/// snapshot that it sends is read again as the world it was made of.
pub fn every_schedule<W, O>()
    ensures legal_log { (m : Worlds W O) (steps : List SystemStep) → IsSchedule m steps
        → IsLegal (after_schedule m steps).session.log }
    ensures replicas_follow { (m : Worlds W O) (steps : List SystemStep) (view : ℕ) (client : Client W O)
        → IsSchedule m steps
        → view_client (after_schedule m steps).clients view ≡ Some client
        → FollowsLog m (after_schedule m steps).session.log client.replica }
    ensures replicas_replay { (m : Worlds W O) (steps : List SystemStep) (view : ℕ) (client : Client W O)
        → IsSchedule m steps
        → view_client (after_schedule m steps).clients view ≡ Some client → m.at_rest client.replica.world ≡ true
        → client.replica.world ≡ replay_world m (after_schedule m steps).session.log (m.time client.replica.world) }
    ensures equal_snapshots { (m : Worlds W O) (steps : List SystemStep) (view other : ℕ) (one two : Client W O)
        → IsSchedule m steps
        → view_client (after_schedule m steps).clients view ≡ Some one
        → view_client (after_schedule m steps).clients other ≡ Some two
        → m.at_rest one.replica.world ≡ true → m.at_rest two.replica.world ≡ true
        → m.time one.replica.world ≡ m.time two.replica.world
        → m.snapshot one.replica.world ≡ m.snapshot two.replica.world }
    ensures kept_is_honest { (m : Worlds W O) (steps : List SystemStep) → IsSchedule m steps
        → IsHonestBase m (after_schedule m steps).session.log (after_schedule m steps).session.kept }
    ensures events_once { (m : Worlds W O) (steps : List SystemStep) → IsSchedule m steps
        → HasEventsOnce (after_schedule m steps).session.log (published_in m steps) }
    ensures acknowledged { (m : Worlds W O) (steps : List SystemStep) (view : ℕ) (client : Client W O)
        → IsSchedule m steps
        → view_client (after_schedule m steps).clients view ≡ Some client
        → client.replica.acknowledged ≤ last_number (after_schedule m steps).session.log view }
    ensures no_surprise { (m : Worlds W O) (steps : List SystemStep) (view : ℕ) (client : Client W O)
        → IsSchedule m steps
        → view_client (after_schedule m steps).clients view ≡ Some client
        → IsNoSurprise (next_fault m (after_schedule m steps) client) }
    ensures no_differs { (m : Worlds W O) (steps : List SystemStep) (connection : ℕ) (c : Connection) (cursor : Cursor)
        (number : ℕ) (payload : List ℕ) (rest : List ClientFrame) (now : ℕ) → IsSchedule m steps
        → slice_get (after_schedule m steps).connections connection ≡ Some c → c.cursor ≡ Some cursor
        → c.up ≡ Send number payload ∷ rest
        → IsNotDiffers (send_event (after_schedule m steps).session cursor.view cursor.joined number payload
        now).reply }
    ensures sound { (m : Worlds W O) (steps : List SystemStep) → IsSchedule m steps
        → IsSoundSession (after_schedule m steps).session }
{}

/// A schedule may be run in parts. Where the snapshot of each valid world spells it, each list of steps over 32-bit views is one.
pub fn schedules_in_parts<W, O>()
    ensures runs { (m : Worlds W O) (s : System W O) (steps : List SystemStep) (step : SystemStep)
        → run_schedule m s (steps ++ step ∷ []) ≡ after_step m (run_schedule m s steps) step }
    ensures publishes { (m : Worlds W O) (s : System W O) (published : ViewPayloads) (steps : List SystemStep)
        (step : SystemStep)
        → published_by m s published (steps ++ step ∷ [])
        ≡ published_after (run_schedule m s steps) (published_by m s published steps) step }
    ensures carries { (m : Worlds W O) (s : System W O) (traffics : Traffics) (steps : List SystemStep)
        (step : SystemStep)
        → traffics_by m s traffics (steps ++ step ∷ [])
        ≡ traffics_after (run_schedule m s steps) (traffics_by m s traffics steps) step }
    ensures spells { (m : Worlds W O) (s : System W O) (steps : List SystemStep) (step : SystemStep)
        → SpellWorlds m s steps → SpellsWorld m (run_schedule m s steps) step → SpellWorlds m s (steps ++ step ∷ []) }
    ensures all { (m : Worlds W O) (steps : List SystemStep) → AreWorlds m
        → ((w : W) → m.valid w ≡ true → m.unsnap (m.snapshot w) ≡ Some w)
        → AreTypedSteps steps → IsSchedule m steps }
{}

/// Each connection is served by the log, be it open, cut or over: what its replica received by it and what is in flight to it, beside
/// the frames of it that were taken. What a cut lost is the end of what it was sent.
pub fn connections_are_served<W, O>()
    ensures { (m : Worlds W O) (steps : List SystemStep) (number : ℕ) (c : Connection) → IsSchedule m steps
        → slice_get (after_schedule m steps).connections number ≡ Some c
        → Served (after_schedule m steps).session.log (traffics_in m steps number).given
        ((traffics_in m steps number).received ++ c.down) }
{}

/// Whatever one connection hears, whenever it sends what is new, and whatever others ask of its session between: what it was sent is
/// served by the log for the frames that it heard. The session is to be sound from turn to turn, and so it is where it was sound
/// before the first one and each view is a number of 32 bits.
pub fn line_is_served()
    ensures served { (id : SessionId) (s : PlainSession) (turns : List LineTurn) → AreSoundTurns id (first_line s) turns
        → Served (after_turns id (first_line s) turns).session.log (after_turns id (first_line s) turns).given
        (after_turns id (first_line s) turns).sent }
    ensures sound { (id : SessionId) (s : PlainSession) (turns : List LineTurn) → IsSoundSession s → AreTypedTurns turns
        → AreSoundTurns id (first_line s) turns }
{}

/// An open connection of a system does what a line does: its Take hears the next frame, its Pull sends what is new, and a Tick is one
/// of the requests that tell it nothing.
pub fn connection_is_line<W, O>()
    ensures takes { (m : Worlds W O) (s : System W O) (number view now : ℕ) (cursor : Option Cursor)
        (given : List (Option ClientFrame)) (frame : ClientFrame) (rest : List ClientFrame) (sent : List ServerFrame)
        → slice_get s.connections number
        ≡ Some (open_connection view (frame ∷ rest) (line_on s.session cursor given sent))
        → after_step m s (Take number now)
        ≡ with_line s number view rest (after_turn (record { 0 = m.session }) (line_on s.session cursor given sent)
        (Hears (Some frame) now)) }
    ensures ticks { (m : Worlds W O) (s : System W O) (number view now : ℕ) (cursor : Option Cursor)
        (given : List (Option ClientFrame)) (up : List ClientFrame) (sent : List ServerFrame)
        → slice_get s.connections number ≡ Some (open_connection view up (line_on s.session cursor given sent))
        → after_step m s (Tick now)
        ≡ with_line s number view up (after_turn (record { 0 = m.session }) (line_on s.session cursor given sent)
        (Others (request.Tick now))) }
    ensures pulls { (m : Worlds W O) (s : System W O) (number view : ℕ) (cursor : Option Cursor)
        (given : List (Option ClientFrame)) (up : List ClientFrame) (sent : List ServerFrame)
        → slice_get s.connections number ≡ Some (open_connection view up (line_on s.session cursor given sent))
        → after_step m s (Pull number)
        ≡ with_line s number view up
        (after_turn (record { 0 = m.session }) (line_on s.session cursor given sent) Pulls) }
{}

/// A step that publishes changes a replica exactly where the replica publishes. A view that asks to go on from a world that was lost joins
/// for the whole log. A connection ends whose join was refused. One that has joined ends by two replies alone: that its view left, and
/// that it joined again by another one.
pub fn steps_in_words<W, O>()
    ensures may_publish { (r new : PlainReplica W O) (payload : List ℕ) → may_publish r payload ≡ true
        → Publishes (Ok (published_count r + 1)) r (publishes r payload) payload }
    ensures may_not { (r new : PlainReplica W O) (payload : List ℕ) (number : ℕ) → may_publish r payload ≡ false
        → Publishes (Ok number) r new payload → ⊥ }
    ensures lost { (m : Worlds W O) (s : System W O) (view : ℕ)
        → after_step m s (Restart view Resume) ≡ after_step m s (Restart view Whole) }
    ensures refused { (c : Connection) (request : Request) (refusal : Refusal)
        → (told_connection c (join_told request (Refused refusal))).over ≡ true }
    ensures stale { (c : Connection) (cursor : Cursor) (request : Request) (current : ℕ)
        → (told_connection c (ask_told cursor request (Refused (Stale current)))).over ≡ true }
    ensures left { (c : Connection) (cursor : Cursor) (request : Request) (seq time : ℕ)
        → (told_connection c (ask_told cursor request (Left seq time))).over ≡ true }
    ensures stays { (c : Connection) (cursor : Cursor) (request : Request) (reply : Reply)
        → ((seq time : ℕ) → reply ≡ Left seq time → ⊥) → ((current : ℕ) → reply ≡ Refused (Stale current) → ⊥)
        → (told_connection c (ask_told cursor request reply)).over ≡ c.over }
{}

/// A replica that publishes with memory enough does so exactly where a step may.
pub fn publication_is_decided<W, O>()
    ensures { (result : Result ℕ PublishRefusal) (r new : PlainReplica W O) (payload : List ℕ)
        → (result ≡ Err WantOfMemory → ⊥) → Publishes result r new payload
        → new ≡ (if may_publish r payload then publishes r payload else r) }
{}

/// A Take and a Pull put back what they leave of a connection. They change nothing where the connection is over, where a Pull finds it
/// not joined, and where a Take finds no frame, unless it is closed and its view has to leave.
pub fn steps_that_rest<W, O>()
    ensures over { (m : Worlds W O) (s : System W O) (number now : ℕ) (c : Connection)
        → slice_get s.connections number ≡ Some c → c.over ≡ true
        → (after_step m s (Take number now) ≡ s) × (after_step m s (Pull number) ≡ s) }
    ensures no_pull { (m : Worlds W O) (s : System W O) (number : ℕ) (c : Connection)
        → slice_get s.connections number ≡ Some c → c.cursor ≡ None → after_step m s (Pull number) ≡ s }
    ensures no_take { (m : Worlds W O) (s : System W O) (number now : ℕ) (c : Connection)
        → slice_get s.connections number ≡ Some c → c.up ≡ [] → c.closed ≡ false
        → after_step m s (Take number now) ≡ s }
    ensures no_leave { (m : Worlds W O) (s : System W O) (number now : ℕ) (c : Connection)
        → slice_get s.connections number ≡ Some c → c.up ≡ [] → c.cursor ≡ None → after_step m s (Take number now) ≡ s }
{}

/// A client that is put in place of the one of its view is found by this view, and the others as before.
pub fn clients_are_found<W, O>()
    ensures replaced { (clients : List (Client W O)) (new old : Client W O) (view : ℕ)
        → view_client clients view ≡ Some old → new.replica.view ≡ view
        → view_client (with_client clients new) view ≡ Some new }
    ensures others { (clients : List (Client W O)) (new : Client W O) (other : ℕ) → other ≢ new.replica.view
        → view_client (with_client clients new) other ≡ view_client clients other }
{}

/// The whole of a schedule: no fault of a frame that a replica received is a surprise, and no request of a joined connection is answered
/// that its event was sent before with another payload; nor will the next Send be.
pub fn whole_schedules<W, O>()
    ensures no_surprise { (m : Worlds W O) (steps : List SystemStep) → IsSchedule m steps
        → All IsExpected (faults_in m steps) }
    ensures no_differs { (m : Worlds W O) (steps : List SystemStep) → IsSchedule m steps
        → All IsNotDiffers (replies_in m steps) }
    ensures next_send { (m : Worlds W O) (steps : List SystemStep) (connection : ℕ) (c : Connection) (cursor : Cursor)
        (number : ℕ) (payload : List ℕ) (rest : List ClientFrame) (now : ℕ) → IsSchedule m steps
        → slice_get (after_schedule m steps).connections connection ≡ Some c → c.cursor ≡ Some cursor
        → c.up ≡ Send number payload ∷ rest
        → IsNotDiffers (answer (after_schedule m steps).session
        (request.Send cursor.view cursor.joined number payload now)).reply }
    // The lists are of what each step met and was told.
    ensures met { (m : Worlds W O) (s : System W O) (view : ℕ) (client : Client W O) (c : Connection)
        (frame : ServerFrame) (rest : List ServerFrame) → view_client s.clients view ≡ Some client
        → slice_get s.connections client.newest ≡ Some c → c.down ≡ frame ∷ rest
        → step_faults m s (Receive view) ≡ faults_of (taken m client.replica frame).fault }
    ensures told { (s : System W O) (number now : ℕ) (c : Connection) (cursor : Cursor) (frame : ClientFrame)
        (rest : List ClientFrame) (request : Request)
        → slice_get s.connections number ≡ Some c → c.over ≡ false → c.cursor ≡ Some cursor → c.up ≡ frame ∷ rest
        → act_on cursor frame now ≡ Call request
        → step_replies s (Take number now) ≡ (answer s.session request).reply ∷ [] }
    ensures faults { (m : Worlds W O) (s : System W O) (steps : List SystemStep) (step : SystemStep)
        → faults_from m s (steps ++ step ∷ []) ≡ faults_from m s steps ++ step_faults m (run_schedule m s steps) step }
    ensures replies { (m : Worlds W O) (s : System W O) (steps : List SystemStep) (step : SystemStep)
        → step_replies_from m s (steps ++ step ∷ []) ≡ step_replies_from m s steps
        ++ step_replies (run_schedule m s steps) step }
{}

/// A schedule with one more step is one, where the step's view is a number of 32 bits and a snapshot that it sends spells its world.
pub fn schedules_grow<W, O>()
    ensures { (m : Worlds W O) (steps : List SystemStep) (step : SystemStep) → IsSchedule m steps → IsTypedStep step
        → SpellsWorld m (after_schedule m steps) step → IsSchedule m (steps ++ step ∷ []) }
{}

/// The times of entries and ticks are those of TeaTime, below 2^53: in what a legal log serves, and so in what is in flight on each
/// connection after every schedule.
pub fn frames_move_in_time<W, O>()
    ensures served { (log : List Entry) (given : List (Option ClientFrame)) (frames : List ServerFrame) → IsLegal log
        → Served log given frames → All IsTimely frames }
    ensures in_flight { (m : Worlds W O) (steps : List SystemStep) (number : ℕ) (c : Connection) → IsSchedule m steps
        → slice_get (after_schedule m steps).connections number ≡ Some c → All IsTimely c.down }
    ensures next { (m : Worlds W O) (steps : List SystemStep) (number : ℕ) (c : Connection) (frame : ServerFrame)
        (rest : List ServerFrame) → IsSchedule m steps
        → slice_get (after_schedule m steps).connections number ≡ Some c → c.down ≡ frame ∷ rest → IsTimely frame }
{}
