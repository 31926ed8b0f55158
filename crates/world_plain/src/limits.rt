//! How much a world may hold.

/// How far the turns of one time are counted, and how many messages may run at it before none more is sent to it.
pub const MOST_TURNS: u32 = 1024;

/// The most views that are here.
pub const MOST_VIEWS: usize = tea_base::MOST_HERE as usize;

/// The most objects.
pub const MOST_OBJECTS: usize = 4096;

/// The most subscriptions.
pub const MOST_SUBSCRIPTIONS: usize = 16_384;

/// The most messages to come.
pub const MOST_MESSAGES: usize = 16_384;

/// The most arguments of a message.
pub const MOST_ARGUMENTS: usize = 16;

/// The greatest weight of a world.
pub const MOST_WORLD_WEIGHT: u32 = 131_072;
