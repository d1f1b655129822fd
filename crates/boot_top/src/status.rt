//! The exit statuses.

/// The text of the command was written.
pub const SUCCESS: u8 = 0;

/// The download ended otherwise than with success.
pub const ENDED_OTHERWISE: u8 = 1;

/// The words are no command line; nothing was read or written.
pub const BAD_WORDS: u8 = 2;

/// The input isn't in the command's grammar; the output has the line that tells where.
pub const BAD_INPUT: u8 = 3;

/// The source failed; nothing was written.
pub const SOURCE_FAILED: u8 = 4;

/// A sink failed; what it holds is a front of what was to be written.
pub const SINK_FAILED: u8 = 5;

/// There was no memory.
pub const NO_MEMORY: u8 = 6;

/// The input is longer than 2,147,483,648 octets; nothing was written.
pub const TOO_LONG: u8 = 7;

/// The command isn't built yet, or a step of a script is for a protocol that isn't; nothing was written. An input of the
/// command's own text was read, and is right.
pub const NOT_BUILT: u8 = 8;
