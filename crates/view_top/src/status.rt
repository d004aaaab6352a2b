// The exit statuses of the program.

/// The page was written whole.
pub const DONE: u8 = 0;

/// The words ask for nothing that the program has. Nothing was read.
pub const USAGE: u8 = 1;

/// The input isn't one report, or two for a pair. Nothing was written.
pub const REFUSED: u8 = 2;

/// The report has no such inode, or its journal has no such places. Nothing was written.
pub const NO_PLACE: u8 = 3;

/// The source of the input failed. Nothing was written.
pub const READ_FAULT: u8 = 4;

/// The sink of the page failed. A proper prefix of the page was written.
pub const WRITE_FAULT: u8 = 5;

/// The source gave more bytes than an input may have. Nothing was written.
pub const TOO_LONG: u8 = 6;

/// Memory ran out. Nothing was written.
pub const OUT_OF_MEMORY: u8 = 7;
