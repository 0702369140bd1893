//! How far the nodes of a chart have come.

/// How far one node has come. A step is untouched, or has had its Start, its Finish, its Reset, its End; a selection
/// is untouched or has chosen the arm at this place; a loop is untouched, also while it turns, or was left. Sequences
/// and parallels stay untouched.
#[derive(Clone, Copy, Debug, PartialEq, Eq)]
pub enum Progress {
    Untouched,
    Begun,
    Finished,
    WasReset,
    Ended,
    Chosen(u32),
    Left,
}

/// What one entry of a run changes: it puts one node, or clears the nodes between two numbers, the body of a loop that
/// is turned.
#[derive(Clone, Copy, Debug, PartialEq, Eq)]
pub enum Change {
    Put { place: u32, to: Progress },
    Clear { above: u32, below: u32 },
}
