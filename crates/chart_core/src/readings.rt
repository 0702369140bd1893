//! The readings by which a node decided.
ghost use Rattle.std.specs.Prelude.{◌≡◌, ◌≤◌, ◌<◌, ◌++◌, ◌∷◌, [], length, nat_le, Some, None, if◌then◌else◌};
ghost use Rattle.chart_core.specs.declared.limits.TheConstants.{MOST_READS};

use super::limits::MOST_READS;
use mtp_codes::Reading;
use std::fmt;
use std::marker::Model;

/// A list of at most four readings, held inline.
#[derive(Clone, Copy, PartialEq, Eq)]
pub struct Readings {
    items: [Reading; MOST_READS],
    len: usize,
}

impl Model for Readings {
    ghost use Rattle.std.specs.Prelude.{List, take};
    ghost use Rattle.mtp_codes.specs.declared.value.Reading.{Reading};

    ghost Value = { List Reading };

    ghost use Rattle.chart_core.specs.Readings.{IsFilledUp};
    ghost use Rattle.chart_core.specs.ReadingsFields.{fields_of, fields_of-kept};

    ghost view = { λ readings. take readings.len readings.items };

    ghost invariant = { λ readings. IsFilledUp readings.items readings.len };

    ghost inverse = { fields_of };

    ghost inverse_ok = { fields_of-kept };
}

impl Readings {
    /// No reading.
    pub fn new() -> Readings
        ensures { result ≡ [] }
    {
        Readings {
            items: [Reading::Bit(false); MOST_READS],
            len: 0,
        }
    }

    /// These readings; None exactly where they are more than four.
    pub fn of_list(list: &[Reading]) -> Option<Readings>
        ensures { result ≡ if nat_le (length list.now) MOST_READS then Some list.now else None }
    {
        if list.len() > MOST_READS {
            return None;
        }
        let mut items = [Reading::Bit(false); MOST_READS];
        items[..list.len()].copy_from_slice(list);
        Some(Readings {
            items,
            len: list.len(),
        })
    }

    /// These readings with one more behind them.
    pub fn with(self, reading: Reading) -> Readings
        requires { length self < MOST_READS }
        ensures { result ≡ self ++ (reading ∷ []) }
    {
        let mut items = self.items;
        items[self.len] = reading;
        Readings {
            items,
            len: self.len + 1,
        }
    }

    /// The readings.
    pub fn as_list(&self) -> &[Reading]
        ensures list { result.now ≡ self.now }
        ensures few { length self.now ≤ MOST_READS }
    {
        &self.items[..self.len]
    }
}

impl fmt::Debug for Readings {
    fn fmt<W: fmt::Write>(&self, f: &mut fmt::Formatter<W>) -> fmt::Result {
        fmt::Debug::fmt(self.as_list(), f)
    }
}
