//! How much a description may hold.

/// The most services of a module.
pub const MOST_SERVICES: usize = 32;

/// The most procedures of a service.
pub const MOST_PROCEDURES: usize = 16;

/// The most parameters of a procedure.
pub const MOST_PARAMS: usize = 32;

/// The most variables of a module.
pub const MOST_VARIABLES: usize = 64;

/// The most bytes of a version as it is written.
pub const LONGEST_VERSION: usize = 64;

/// The greatest number of a procedure.
pub const GREATEST_PROCEDURE: u16 = 65_535;
