//! The operation modes of a service, who sends it commands, and why a command may not go to it.

/// The operation mode that a service last reported (VDI/VDE/NAMUR 2658 part 4).
#[derive(Clone, Copy, Debug, PartialEq, Eq)]
pub enum Mode {
    Off,
    Operator,
    Automatic,
}

/// Where a service in mode Automatic takes its commands from: the module itself, or the layer above it
/// (the source of VDI/VDE/NAMUR 2658 part 4).
#[derive(Clone, Copy, Debug, PartialEq, Eq)]
pub enum Origin {
    Internal,
    External,
}

/// Who sends a command: an operator at a desk, a recipe, or the module's own control.
#[derive(Clone, Copy, Debug, PartialEq, Eq)]
pub enum Speaker {
    Operator,
    Recipe,
    Inner,
}

/// Why a command may not go to a service.
#[derive(Clone, Copy, Debug, PartialEq, Eq)]
pub enum Forbid {
    /// The mode and source don't let this speaker command.
    ModeForbids,
    /// Complete, to a procedure that completes by itself.
    SelfCompletes,
    /// The state machine has no edge for this command from the state.
    StateForbids,
    /// The module doesn't enable the command.
    NotEnabled,
}
