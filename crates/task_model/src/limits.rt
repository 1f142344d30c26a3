/// The most bytes of a text.
pub const TEXT_BYTE_LIMIT: usize = 65_536;

/// The most elements of a list.
pub const LIST_ELEMENT_LIMIT: usize = 1_024;

/// The most levels of a literal.
pub const LITERAL_LEVEL_LIMIT: usize = 64;

/// The most symbols of a type.
pub const TYPE_SYMBOL_LIMIT: usize = 64;

/// The most bytes of a program's text.
pub const PROGRAM_BYTE_LIMIT: usize = 1_048_576;

/// The most levels of a program.
pub const PROGRAM_LEVEL_LIMIT: usize = 200;

/// The most names in scope at a place of a program.
pub const SCOPE_NAME_LIMIT: usize = 200;

/// The greatest height of a derivation.
pub const HEIGHT_LIMIT: u32 = 1_000;

/// The greatest budget of units.
pub const BUDGET_LIMIT: u32 = 1_000_000;

/// The budget of units where none is given.
pub const DEFAULT_BUDGET: u32 = 10_000;

/// The greatest number of a seat.
pub const SEAT_LIMIT: u8 = 64;

/// The most bytes of a line of a script.
pub const LINE_BYTE_LIMIT: usize = 1_048_576;

/// The most bytes of a script.
pub const SCRIPT_BYTE_LIMIT: u64 = 67_108_864;
