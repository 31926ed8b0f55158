//! What threads may share.
ghost use Rattle.std.specs.Thread.{IsSync};
ghost use Rattle.croquet_main.specs.contracts.served.Served as served;
ghost use Rattle.croquet_main.specs.contracts.told_net.GuestCount as counted;

/// Threads may share which session is served.
pub fn served_is_shared()
    ensures { IsSync served.the_row }
{}

/// Threads may share the count of the links that were accepted.
pub fn guests_are_shared()
    ensures { IsSync counted.the_row }
{}
