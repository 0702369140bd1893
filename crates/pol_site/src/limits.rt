//! How large a site may be, beside the limits of a plant.

/// The most ticks of a change that a service makes by itself, and of an execution.
pub const MOST_TICKS: u16 = 1000;

/// The most variables that drift in one simulation.
pub const MOST_DRIFTS: usize = 64;

/// The most exchanges of a site.
pub const MOST_EXCHANGES: usize = 256;

/// The most commands of a site's desk.
pub const MOST_ORDERS: usize = 256;
