//! What histories tell.
ghost use Rattle.std.specs.Prelude.{List, ◌++◌};
ghost use Rattle.std.specs.Thread.{IsSend, IsSync};
ghost use Rattle.reflector_core.specs.PlainSession.{PlainSession, IsSoundSession};
ghost use Rattle.reflector_core.specs.Growth.{GrowsTo};
ghost use Rattle.session_lock.specs.declared.knowledge.Item.{Item};
ghost use Rattle.session_lock.specs.History.{play_from, IsSoundThrough};
ghost use Rattle.session_lock.specs.contracts.lock.Pass as pass;
ghost use Rattle.session_lock.specs.contracts.lock.SharedSession as shared;

use crate::trust::Trust;
use reflector_core::Keeper;

/// What a pass is told to be sound all the way is sound at each place: each beginning of the history plays to a sound
/// session, and so does the whole.
pub fn sound_at_each_place()
    ensures place { (opening : PlainSession) (beginning rest : List Item) → IsSoundThrough opening (beginning ++ rest) →
        IsSoundSession (play_from opening beginning) }
    ensures end { (opening : PlainSession) (history : List Item) → IsSoundThrough opening history →
        IsSoundSession (play_from opening history) }
{}

/// A history only adds: the log that a beginning leaves stays, and goes on with entries above the horizon that the
/// beginning leaves.
pub fn history_goes_on()
    ensures { (opening : PlainSession) (beginning rest : List Item) →
        GrowsTo (play_from opening beginning) (play_from opening (beginning ++ rest)) }
{}

/// A pass may move to another thread, if the keeper may.
pub fn pass_crosses_threads<K: Send>()
    ensures { IsSend (pass.the_row K.row) }
{}

/// A session may be shared by threads, if its trust may and its keeper may move to another.
pub fn session_crosses_threads<T: Trust + Sync, K: Keeper + Send>()
    ensures { IsSync (shared.the_row T.row K.row T.Trust K.Keeper) }
{}
