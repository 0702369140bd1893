//! Values that are written as words in JSON.

ghost use Rattle.std.specs.Prelude.{◌≡◌, ℕ, List};
ghost use Rattle.mtp_json.specs.Leaf.{meaning_of};

/// A table of words, each of which stands for a value of one type.
pub trait Words {
    type Item: Copy;

    ghost words: { List (List ℕ × Self.Item) };

    /// What this text stands for, if the table has it.
    fn of_text(text: &str) -> Option<Self::Item>
        ensures { result ≡ meaning_of text.now words };
}
