// The exit statuses of the program.

/// The input was read to its end and the rows were written whole.
pub const DONE: u8 = 0;

/// The words are neither none, nor a number, nor a number and first turns. Nothing was read.
pub const USAGE: u8 = 1;

/// The input isn't a script. Nothing was written.
pub const REFUSED: u8 = 2;

/// The script has too many ways to begin an order, too long ones, or too many orders. Nothing was
/// written.
pub const TOO_MANY: u8 = 3;

/// The source of the input failed. Nothing was written.
pub const READ_FAULT: u8 = 4;

/// The sink of the output failed. A proper prefix of the output was written.
pub const WRITE_FAULT: u8 = 5;

/// The source gave more bytes than an input may have. Nothing was written.
pub const TOO_LONG: u8 = 6;

/// Memory ran out. Nothing was written.
pub const OUT_OF_MEMORY: u8 = 7;
