//! The limits and the defaults of the options. They are this program's choice.

/// The greatest number of readers.
pub const MAX_READERS: u32 = 16;

/// The number of readers if the arguments give none.
pub const DEFAULT_READERS: u32 = 2;

/// The greatest number of accepted commands that the arguments can ask for.
pub const MAX_COMMANDS: u32 = 4_294_967_294;

/// The greatest number of accepted commands if the arguments give none.
pub const DEFAULT_MAX_COMMANDS: u32 = 1_000_000;

/// The greatest length of a body that the arguments can ask for, in bytes.
pub const MAX_BODY: u32 = 67_108_864;

/// The greatest length of a body if the arguments give none.
pub const DEFAULT_MAX_BODY: u32 = 1_048_576;

/// The greatest length of a line that the arguments can ask for, in bytes.
pub const MAX_LINE: u32 = 67_108_864;

/// The greatest length of a line if the arguments give none.
pub const DEFAULT_MAX_LINE: u32 = 16_384;

/// The greatest length of a name that the arguments can ask for, in bytes.
pub const MAX_NAME: u32 = 4_096;

/// The greatest length of a name if the arguments give none.
pub const DEFAULT_MAX_NAME: u32 = 255;

/// The greatest limit of time for a search, in milliseconds.
pub const MAX_SEARCH_MS: u32 = 4_294_967_295;
