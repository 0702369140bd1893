//! Parameters of a procedure.

ghost use Rattle.std.specs.Prelude.{IsTrue};
ghost use Rattle.mtp_codes.specs.Names.{is_name};
ghost use Rattle.mtp_assembly.specs.Kinds.{is_ordered};

use mtp_codes::Name;

/// The kind of a parameter with its least and its greatest value (VDI/VDE/NAMUR 2658 part 4). An analogue value is a
/// whole number of thousandths.
#[derive(Clone, Copy, Debug, PartialEq, Eq)]
pub enum ParamKind {
    /// AnaServParam.
    Ana { min: i64, max: i64 },
    /// DIntServParam.
    DInt { min: i32, max: i32 },
    /// BinServParam.
    Bin,
    /// StringServParam.
    Text,
}

/// A parameter of a procedure, whose least value is not above its greatest.
#[derive(Clone, Copy)]
pub struct Param {
    /// Its name in the procedure.
    pub name: Name,
    /// Its interface, with the range of its values.
    pub kind: ParamKind,
    ghost named: { IsTrue (is_name name) },
    ghost ordered: { IsTrue (is_ordered kind) },
}
