//! The sum over a record and all records before it.
ghost use Rattle.std.specs.Prelude.{◌≡◌, ◌≤◌, length, take};
ghost use Rattle.sha2.specs.Hashers.{Holds256};
ghost use Rattle.pol_ledger.specs.Sums.{bytes_before, sum_after};

use sha2::{Digest, Sha256};

// A hasher that holds the sum before a record.
fn hasher_behind(before: Option<[u8; 32]>) -> Sha256
    ensures { Holds256 result (bytes_before before) }
{
    match before {
        Some(sum) => Sha256::new_with_prefix(sum.as_slice()),
        None => Sha256::new(),
    }
}

/// The sum of a record: SHA-256 over the sum before it, where there is one, and over its body.
pub fn sum_after(before: Option<[u8; 32]>, body: &[u8]) -> [u8; 32]
    ensures { result ≡ sum_after (bytes_before before) body.now }
{
    let mut hasher = hasher_behind(before);
    hasher.update(body);
    hasher.finalize()
}

/// The sum that the text of a record begins with.
pub fn sum_of_text(text: &[u8]) -> [u8; 32]
    requires { 32 ≤ length text.now }
    ensures { result ≡ take 32 text.now }
{
    let mut sum = [0; 32];
    sum.copy_from_slice(&text[..32]);
    sum
}
