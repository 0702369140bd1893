//! The limits of a plant: how many modules, recipes, batches, binds and history entries there may be.

/// The most modules that are docked or away.
pub const MOST_MODULES: usize = 64;

/// The most recipes that are known.
pub const MOST_RECIPES: usize = 64;

/// The most batches that were started.
pub const MOST_BATCHES: usize = 128;

/// The most roles that a start binds.
pub const MOST_BINDS: usize = 64;

/// The most entries of a history.
pub const LONGEST_HISTORY: usize = 200_000;
