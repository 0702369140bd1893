//! What is to be written for a group of texts.
ghost use Rattle.std.specs.Prelude.{◌≡◌, ◌+◌, ◌<◌, ◌≤◌, ◌^◌, ◌++◌, ◌∷◌, [], ℕ, List, length, vec_len, vec_capacity};
ghost use Rattle.pol_texts.specs.Settled.{IsStaged, behind_gate};

use crate::gate::OPEN_GATE;

/// Puts one text more behind a group that waits to be written and has room for it: what is written for it alone comes
/// behind the others, and the gate between them is an open one.
pub fn stage(group: &mut Vec<u8>, behind: &[u8])
    requires { vec_len group.old + length behind.now ≤ vec_capacity group.old }
    ensures staged { (texts : List (List ℕ)) (text : List ℕ) → IsStaged texts group.old.items
        → behind.now ≡ behind_gate text → length text < 2 ^ 64 → IsStaged (texts ++ text ∷ []) group.new.items }
    ensures size { length group.new.items ≡ length group.old.items + length behind.now }
{
    let size = group.len();
    if group.extend_from_slice(behind).is_err() {
        unreachable!();
    }
    if size > 0 {
        group[size - 1] = OPEN_GATE;
    }
}
