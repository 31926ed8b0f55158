//! Files and threads.
ghost use Rattle.std.specs.Thread.{IsSend};
ghost use Rattle.file_store.specs.contracts.store.FileStore as file_store;

/// A store may go to another thread.
pub fn file_store_crosses_threads()
    ensures { IsSend file_store.the_row }
{}
