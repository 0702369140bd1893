//! Variables of a module.

ghost use Rattle.std.specs.Prelude.{IsTrue};
ghost use Rattle.mtp_codes.specs.Names.{is_name};

use mtp_codes::Name;

/// The kind of a variable (VDI/VDE/NAMUR 2658 part 4). An analogue value is a whole number of thousandths.
#[derive(Clone, Copy, Debug, PartialEq, Eq)]
pub enum ViewKind {
    /// AnaView.
    Ana,
    /// DIntView.
    DInt,
    /// BinView.
    Bin,
    /// StringView.
    Text,
}

/// A variable that a module reports.
#[derive(Clone, Copy)]
pub struct View {
    /// Its name in the module.
    pub name: Name,
    /// Its interface, which says what its values are.
    pub kind: ViewKind,
    ghost named: { IsTrue (is_name name) },
}
