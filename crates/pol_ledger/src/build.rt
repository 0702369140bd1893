//! The build of the program that began a ledger.
ghost use Rattle.std.specs.Prelude.{◌≡◌, Some, None, IsTrue, if◌then◌else◌};
ghost use Rattle.std.specs.List.{list_all};
ghost use Rattle.pol_ledger.specs.Builds.{is_build, is_printable, this_build};

use std::marker::Model;

/// Names this build of the program.
pub const THIS_BUILD: &str = "pol 1.0.0";

/// What names a build, and where the ledger goes on from another one, the last sum of that one's: 1 to 96 bytes, each
/// printable ASCII.
#[derive(Drop)]
pub struct Build {
    bytes: [u8; 96],
    len: u8,
}

impl Model for Build {
    ghost use Rattle.std.specs.Prelude.{List, ℕ, take};
    ghost use Rattle.pol_ledger.specs.Builds.{IsKeptBuild};

    ghost Value = { List ℕ };

    ghost view = { λ build. take build.len build.bytes };

    ghost invariant = { λ build. IsKeptBuild build.bytes build.len };
}

fn is_printable(byte: u8) -> bool
    ensures { result ≡ is_printable byte }
{
    matches!(byte, b' '..=b'~')
}

fn has_printable_bytes(bytes: &[u8]) -> bool
    ensures { result ≡ list_all is_printable bytes.now }
{
    bytes.iter().all(|byte| is_printable(*byte))
}

fn is_build(bytes: &[u8]) -> bool
    ensures { result ≡ is_build bytes.now }
{
    1 <= bytes.len() && bytes.len() <= 96 && has_printable_bytes(bytes)
}

impl Build {
    /// The build that these bytes name; None exactly where they name none.
    pub fn of_bytes(bytes: &[u8]) -> Option<Build>
        ensures { result ≡ if is_build bytes.now then Some bytes.now else None }
    {
        if bytes.len() > 96 || !is_build(bytes) {
            return None;
        }
        let mut kept = [0u8; 96];
        kept[..bytes.len()].copy_from_slice(bytes);
        Some(Build {
            bytes: kept,
            len: bytes.len() as u8,
        })
    }

    /// What names it.
    pub fn as_bytes(&self) -> &[u8]
        ensures bytes { result.now ≡ self.now }
        ensures form { IsTrue (is_build self.now) }
    {
        &self.bytes[..self.len as usize]
    }

    /// This build of the program.
    pub fn this() -> Build
        ensures { result ≡ this_build }
    {
        match Build::of_bytes(THIS_BUILD.as_bytes()) {
            Some(build) => build,
            None => unreachable!(),
        }
    }
}
