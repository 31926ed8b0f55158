//! The run of a reflector that keeps a journal, up to where it serves.
ghost use Rattle.std.specs.Prelude.{◌≡◌, ℕ, List, IfOk, Ok, true};
ghost use Rattle.run_steps.specs.Outside.{files_side, files_side_tells, files_tell, output_tells};
ghost use Rattle.store_io.specs.Stores.{TellsOnly};
ghost use Rattle.journal_store.specs.Stores.{stores_tell};
ghost use Rattle.command_outcome.specs.declared.outcome.Input.TheVariants as input;
ghost use Rattle.command_outcome.specs.declared.outcome.CommandRefusal.TheVariants as refusal;
ghost use Rattle.command_reflect.specs.KeptSteps.{GoesOnFrom, kept_place};
ghost use Rattle.store_io.specs.declared.stores.Opened.TheVariants as opened;
ghost use Rattle.commands.specs.Work.{IsBoundedKeeping, plain_keeping};
ghost use Rattle.croquet.specs.Calls.{opening_ending, ungone_ending, unread_ending};
ghost use Rattle.croquet.specs.Keeps.{FoundsOrEnds, HasStore, IsKeepingTurn, OpensKeeping, OpensOrEnds, OpensOrTells, Prepares, ReadsJournal, ResumesOrTells, ResumesThere, WasReadAs, turn_of};
ghost use Rattle.croquet.specs.Run.{TellsEnding, refusal_ending};

use crate::giving::give;
use crate::status::Status;
use crate::telling::{tell, tell_refusal, tell_want_of_memory};
use crate::top::{Turn, go_on as run_on};
use command_outcome::{CommandRefusal, Input};
use command_reflect::{GoingOn, Keeping, read_kept};
use commands::found_journal;
use journal_store::{OpeningFault, go_on, open_journal};
use reflect_server::Opening;
use session_journal::{JournalFault, Read, Unopened};
use session_keeper::JournalKeeper;
use std::alloc::Global;
use store_io::{Opened, Store, StoreFault, Stores};
use tea_base::Blob;
use tea_io::{Files, Sink};

/// The store of a journal, and the bytes that were read from it.
#[derive(Drop)]
pub struct There<J> {
    pub store: J,
    pub bytes: Blob,
}

/// A store from which no session goes on, and how the run has ended.
#[derive(Drop)]
pub struct Stopped<J> {
    pub store: J,
    pub status: Status,
}

/// Tells why a journal was not opened.
fn tell_opening<W: Sink>(out: &mut W, fault: OpeningFault) -> Status
    ensures { TellsEnding (output_tells W.Sink) (opening_ending fault) out.old out.new result }
{
    match fault {
        OpeningFault::Unfounded => tell(out, "write-fault\n", Status::WriteFault),
        OpeningFault::Unopened => tell(out, "read-fault\n", Status::ReadFault),
        OpeningFault::WantOfMemory => tell_want_of_memory(out),
    }
}

/// Tells that a file is no journal of the session.
fn tell_no_journal<W: Sink>(out: &mut W) -> Status
    ensures { TellsEnding (output_tells W.Sink) (refusal_ending (refusal.Input input.Journal)) out.old out.new result }
{
    tell_refusal(out, &CommandRefusal::Input(Input::Journal))
}

/// Tells why the bytes of a journal were not read.
fn tell_unread<W: Sink>(out: &mut W, fault: JournalFault) -> Status
    ensures { TellsEnding (output_tells W.Sink) (unread_ending fault) out.old out.new result }
{
    match fault {
        JournalFault::NoJournal => tell_no_journal(out),
        JournalFault::OtherSession => tell_no_journal(out),
        JournalFault::WantOfMemory => tell_want_of_memory(out),
    }
}

/// Tells why a session does not go on from its journal.
fn tell_ungone<W: Sink>(out: &mut W, fault: StoreFault) -> Status
    ensures { TellsEnding (output_tells W.Sink) (ungone_ending fault) out.old out.new result }
{
    match fault {
        StoreFault::Failed => tell(out, "write-fault\n", Status::WriteFault),
        StoreFault::WantOfMemory => tell_want_of_memory(out),
    }
}

/// Opens a journal, founded before that where it is known with what; or tells its fault.
fn open<W: Sink, S: Stores>(
    alloc: Global,
    keeping: &Keeping,
    out: &mut W,
    stores: &mut S,
) -> Result<Option<There<S::Store>>, Status>
    requires { IsBoundedKeeping keeping.now }
    ensures opens { OpensOrTells (output_tells W.Sink)
        (stores_tell S.Stores S.Store.Store) (plain_keeping keeping.now) result out.old out.new stores.old stores.new }
    ensures out { HasStore (S.is_out stores.new keeping.now.journal) result }
{
    match open_journal(
        alloc,
        &keeping.id,
        &keeping.journal,
        keeping.opening.as_ref(),
        stores,
    ) {
        Ok(Opened::There { store, bytes }) => Ok(Some(There { store, bytes })),
        Ok(Opened::Absent) => Ok(None),
        Ok(Opened::TooLarge { .. }) => Err(tell_no_journal(out)),
        Err(fault) => Err(tell_opening(out, fault)),
    }
}

/// The keeping that a command goes on with, or how it ended.
fn kept_turn(turn: Turn) -> Result<Keeping, Status>
    requires { IsKeepingTurn turn }
    ensures { turn_of result ≡ turn }
{
    match turn {
        Turn::Over(status) => Err(status),
        Turn::Keeps(keeping) => Ok(keeping),
        Turn::Visits(_) => unreachable!(),
        Turn::Lives(_) => unreachable!(),
        Turn::Reflects(_) => unreachable!(),
        Turn::Hosts(_) => unreachable!(),
        Turn::Drills(_) => unreachable!(),
    }
}

/// What a journal is founded with that is not there, unless it was founded just now.
fn found<F: Files, W: Sink>(
    alloc: Global,
    keeping: Keeping,
    files: &mut F,
    out: &mut W,
) -> Result<Keeping, Status>
    requires { IsBoundedKeeping keeping }
    ensures founds { FoundsOrEnds
        (files_side_tells (files_tell F.Files) (output_tells W.Sink))
        (plain_keeping keeping) result (files_side files.old out.old) (files_side files.new out.new) }
    ensures bounded { IfOk result IsBoundedKeeping }
{
    if keeping.opening.is_some() {
        return Err(tell(out, "read-fault\n", Status::ReadFault));
    }
    kept_turn(run_on(alloc, found_journal(alloc, keeping), files, out))
}

/// Founds a journal that is not there, and opens it.
fn found_and_open<F: Files, W: Sink, S: Stores>(
    alloc: Global,
    keeping: Keeping,
    files: &mut F,
    out: &mut W,
    stores: &mut S,
) -> Result<(Keeping, There<S::Store>), Status>
    requires bounded { IsBoundedKeeping keeping }
    ensures opens { (s : S) → OpensKeeping (stores_tell S.Stores S.Store.Store)
        (plain_keeping keeping) (Ok opened.Absent) s stores.old
        → OpensOrEnds (files_side_tells (files_tell F.Files) (output_tells W.Sink)) (stores_tell S.Stores S.Store.Store)
        (plain_keeping keeping) result (files_side files.old out.old) (files_side files.new out.new) s stores.new }
    ensures bounded { IfOk result (λ found. IsBoundedKeeping found.0) }
    ensures out { IfOk result (λ found. S.is_out stores.new found.0.journal ≡ true) }
{
    let keeping = found(alloc, keeping, files, out)?;
    match open(alloc, &keeping, out, stores)? {
        Some(there) => Ok((keeping, there)),
        None => Err(tell(out, "read-fault\n", Status::ReadFault)),
    }
}

/// Opens the journal of a command, and founds it where it is not there.
fn open_or_found<F: Files, W: Sink, S: Stores>(
    alloc: Global,
    keeping: Keeping,
    files: &mut F,
    out: &mut W,
    stores: &mut S,
) -> Result<(Keeping, There<S::Store>), Status>
    requires bounded { IsBoundedKeeping keeping }
    ensures opens { OpensOrEnds (files_side_tells (files_tell F.Files) (output_tells W.Sink))
        (stores_tell S.Stores S.Store.Store) (plain_keeping keeping) result (files_side files.old out.old)
        (files_side files.new out.new) stores.old stores.new }
    ensures bounded { IfOk result (λ found. IsBoundedKeeping found.0) }
    ensures out { IfOk result (λ found. S.is_out stores.new found.0.journal ≡ true) }
{
    match open(alloc, &keeping, out, stores)? {
        Some(there) => Ok((keeping, there)),
        None => found_and_open(alloc, keeping, files, out, stores),
    }
}

/// Goes on with a journal that was read, once what comes of it was put and printed.
fn resume<W: Sink, J: Store + Drop>(
    alloc: Global,
    keeping: &Keeping,
    store: J,
    going: GoingOn,
    out: &mut W,
) -> Result<Opening<JournalKeeper<J>>, Stopped<J>>
    requires { WasReadAs (J.bytes store) keeping.now going }
    ensures { ResumesOrTells (output_tells W.Sink) J.bytes J.safe J.faults store
        (kept_place going) result out.old out.new }
{
    let GoingOn {
        stored,
        check,
        good,
        torn,
        ..
    } = going;
    let read = Read {
        stored,
        check,
        good,
        torn: torn.bytes(),
    };
    match go_on(alloc, keeping.id, store, read) {
        Ok((session, keeper)) => Ok(Opening { session, keeper }),
        Err(Unopened { store, fault }) => {
            let status = tell_ungone(out, fault);
            Err(Stopped { store, status })
        }
    }
}

/// Puts and prints what comes of a journal that was read, and goes on with it.
fn put_and_resume<F: Files, W: Sink, J: Store + Drop>(
    alloc: Global,
    keeping: &Keeping,
    store: J,
    going: GoingOn,
    files: &mut F,
    out: &mut W,
) -> Result<Opening<JournalKeeper<J>>, Stopped<J>>
    requires { WasReadAs (J.bytes store) keeping.now going }
    ensures { (bytes : List ℕ) → GoesOnFrom keeping.now bytes going
        → ReadsJournal (files_side_tells (files_tell F.Files) (output_tells W.Sink))
        J.bytes J.safe J.faults (plain_keeping keeping.now) store bytes result (files_side files.old out.old)
        (files_side files.new out.new) }
{
    match give(&going.outcome, files, out) {
        Ok(()) => resume(alloc, keeping, store, going, out),
        Err(status) => Err(Stopped { store, status }),
    }
}

/// Reads the bytes of a journal, and goes on with it.
fn read_and_resume<F: Files, W: Sink, J: Store + Drop>(
    alloc: Global,
    keeping: &Keeping,
    store: J,
    bytes: &[u8],
    files: &mut F,
    out: &mut W,
) -> Result<Opening<JournalKeeper<J>>, Stopped<J>>
    requires { TellsOnly (J.bytes store) bytes.now }
    ensures { ReadsJournal (files_side_tells (files_tell F.Files) (output_tells W.Sink))
        J.bytes J.safe J.faults (plain_keeping keeping.now) store bytes.now result (files_side files.old out.old)
        (files_side files.new out.new) }
{
    match read_kept(alloc, keeping, bytes) {
        Ok(going) => put_and_resume(alloc, keeping, store, going, files, out),
        Err(fault) => {
            let status = tell_unread(out, fault);
            Err(Stopped { store, status })
        }
    }
}

/// Goes on with a journal that is there; or tells why that does not go on, and gives its store back.
fn resume_there<F: Files, W: Sink, S: Stores<Store = J>, J: Store + Drop>(
    alloc: Global,
    keeping: Keeping,
    there: There<J>,
    files: &mut F,
    out: &mut W,
    stores: &mut S,
) -> Result<(Keeping, Opening<JournalKeeper<J>>), Status>
    requires bounded { IsBoundedKeeping keeping }
    requires tells { TellsOnly (J.bytes there.store) there.bytes }
    requires out { S.is_out stores.old keeping.journal ≡ true }
    ensures resumes { ResumesThere
        (files_side_tells (files_tell F.Files) (output_tells W.Sink)) (stores_tell S.Stores J.Store)
        keeping there result (files_side files.old out.old) (files_side files.new out.new) stores.old stores.new }
    ensures bounded { IfOk result (λ ready. IsBoundedKeeping ready.0) }
    ensures out { IfOk result (λ ready. S.is_out stores.new ready.0.journal ≡ true) }
{
    let There { store, bytes: held } = there;
    match read_and_resume(alloc, &keeping, store, held.bytes(), files, out) {
        Ok(opening) => Ok((keeping, opening)),
        Err(Stopped { store, status }) => {
            stores.back(&keeping.journal, store);
            Err(status)
        }
    }
}

/// Opens the journal of a command, founds it where it is not there, and goes on with its session; or tells why that does not go on, and gives its
/// store back.
pub(crate) fn prepare<F: Files, W: Sink, S: Stores<Store = J>, J: Store + Drop>(
    alloc: Global,
    keeping: Keeping,
    files: &mut F,
    out: &mut W,
    stores: &mut S,
) -> Result<(Keeping, Opening<JournalKeeper<J>>), Status>
    requires { IsBoundedKeeping keeping }
    ensures prepares { Prepares (files_side_tells (files_tell F.Files)
        (output_tells W.Sink)) (stores_tell S.Stores J.Store)
        (plain_keeping keeping) result (files_side files.old out.old)
        (files_side files.new out.new) stores.old stores.new }
    ensures bounded { IfOk result (λ ready. IsBoundedKeeping ready.0) }
    ensures out { IfOk result (λ ready. S.is_out stores.new ready.0.journal ≡ true) }
{
    let (keeping, there) = open_or_found(alloc, keeping, files, out, stores)?;
    resume_there(alloc, keeping, there, files, out, stores)
}
