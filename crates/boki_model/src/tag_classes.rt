//! The classes of tags. A tag is its class times 2^56 plus a number below 2^56.

/// Tags of users.
pub const USER_CLASS: u8 = 0;

/// What an invocation calls, by its path: a Submit or a Spawn.
pub const CALL_CLASS: u8 = 1;

/// The step records of an invocation, by its path.
pub const STEP_CLASS: u8 = 2;

/// The switches of mode.
pub const MODE_CLASS: u8 = 3;

/// The trims of the log.
pub const TRIM_CLASS: u8 = 4;

/// The logged writes of an object, by its key.
pub const OBJECT_CLASS: u8 = 5;

/// The pushes and pops of a queue, by its name.
pub const QUEUE_CLASS: u8 = 6;

/// The commits of transactions.
pub const TRANSACTION_CLASS: u8 = 7;

/// The trims of a user's tag, by its number.
pub const TRIMMED_TAG_CLASS: u8 = 8;

/// Where invocations begin and end: each Init and each Finish.
pub const LIFE_CLASS: u8 = 9;
