//! Limits of scripts, plans and records: the definitions are by these numbers, and the code can name them.

/// The bytes of a text value, at most.
pub const MAX_TEXT_BYTES: usize = 256;

/// The bytes of a name of an object, a queue or a store entry, at most.
pub const MAX_NAME_BYTES: usize = 64;

/// The bytes of an identifier, at most.
pub const MAX_IDENTIFIER_BYTES: usize = 32;

/// Arguments, parameters, names, writes and tags of one call, function or record, at most.
pub const MAX_LIST_ITEMS: usize = 8;

/// The bytes of a text value that a write's record may hold; a longer one is stored under its name.
pub const MAX_INLINE_BYTES: usize = 64;

/// The operands of an expression, at most.
pub const MAX_OPERANDS: usize = 64;

/// How deep `not`, `text` and `len` stand in one another, at most.
pub const MAX_NESTING: usize = 32;

/// The blocks open inside a function, at most, where one more is opened.
pub const MAX_OUTER_BLOCKS: usize = 14;

/// The functions of a program, at most.
pub const MAX_FUNCTIONS: usize = 256;

/// The numbers of a path, at most: a request, and three ordinals.
pub const MAX_PATH_NUMBERS: usize = 4;

/// The ordinals of an invocation's children are below this.
pub const ORDINALS_BELOW: u32 = 4_096;

/// Entries into loop bodies between two operations, at most.
pub const MAX_LOOP_ENTRIES: u64 = 10_000;

/// The shards of a log, at most.
pub const MAX_SHARDS: u32 = 16;

/// The replicas of a shard, at most.
pub const MAX_REPLICAS: u32 = 5;

/// The engines of a log, at most.
pub const MAX_ENGINES: u32 = 16;

/// The number of an attempt, at most.
pub const MAX_ATTEMPT: u32 = 4_096;

/// The events of a plan with its repeats done, at most.
pub const MAX_EVENTS: u64 = 200_000;

/// The auxiliary entries of an engine, at most.
pub const MAX_AUX_ENTRIES: usize = 64;
