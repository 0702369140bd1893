//! How large a policy may be.

/// The most groups of a policy.
pub const MOST_GROUPS: usize = 64;

/// The most members of a group.
pub const MOST_MEMBERS: usize = 256;

/// The most rules of a policy.
pub const MOST_RULES: usize = 256;

/// The most names that a list of a rule has.
pub const MOST_LISTED: usize = 64;

/// The most commands that a rule lists.
pub const MOST_COMMANDS: usize = 10;

/// The most items of a list whose places a set can keep: those of a policy's groups, and of its rules.
pub const MOST_PLACES: usize = 256;

const _: () = prove!(MOST_GROUPS <= MOST_PLACES && MOST_RULES <= MOST_PLACES);
