//! A chronicle: what items happen in, one after another, and as which texts they are kept.
ghost use Rattle.std.specs.Prelude.{◌≡◌, ◌≤◌, ℕ, List, [], IfOk, IfErr, OnOk, length};
ghost use Rattle.std.specs.Bool.{Decides};
ghost use Rattle.pol_kept.specs.Names.{Names, SoundOption};
ghost use Rattle.pol_kept.specs.Work.{ChronicleWork, IsLawful, IsTextIfKept};

use std::alloc::{AllocError, Global};

/// A chronicle, in which items happen one after another: it answers each, and each that it keeps has a text by which it
/// is known again. A text may depend on the items before its own.
pub trait Chronicle: Drop {
    /// What happens in a chronicle.
    type Item: Drop;

    /// What a chronicle answers to an item.
    type Answer: Drop;

    /// What a chronicle knows between two items.
    ghost State: { Type 0 };

    /// What this chronicle knows.
    ghost state: { Self → State };

    /// An item, as contracts see it.
    ghost Plain: { Type 0 };

    /// What contracts see of an item.
    ghost plain: { Self.Item → Plain };

    /// What a chronicle answers to each item, and as which texts its items are kept.
    ghost work: { ChronicleWork State Plain Self.Answer };

    /// What holds of a chronicle before and after a call in which nothing happened; it may have made room.
    ghost IsSame: { Self → Self → Type 0 };

    /// What is asked of an item before it happens.
    ghost IsSound: { Plain → Type 0 };

    /// A chronicle in which nothing has happened yet.
    fn new(alloc: Global) -> Self
        ensures { work.items (state result) ≡ [] };

    /// Whether as many items were kept as can be.
    fn is_full(&self) -> bool
        ensures { Decides result (work.most ≤ length (work.items (state self.now))) };

    /// The text of an item, if it happened now and were kept.
    fn text_of(&self, alloc: Global, item: &Self::Item) -> Result<Vec<u8>, AllocError>
        requires { IsSound (plain item.now) }
        ensures { IfOk result (λ text. IsTextIfKept work (state self.now) (plain item.now) text.items) };

    /// The item whose text this would be, if it happened now; None where there is none. The buffer is room to work in,
    /// so that many texts need no more of it than one.
    fn item_of(
        &self,
        alloc: Global,
        text: &[u8],
        room: &mut Vec<u8>,
    ) -> Result<Option<Self::Item>, AllocError>
        ensures names { IfOk result (Names work plain (work.items (state self.now)) text.now) }
        ensures sound { IfOk result (SoundOption IsSound plain) };

    /// Has an item happen, which has this text if it is kept.
    ///
    /// # Errors
    ///
    /// AllocError where there is no memory; then nothing happened, and the item comes back.
    fn apply(
        &mut self,
        item: Self::Item,
        text: &[u8],
    ) -> Result<Self::Answer, (Self::Item, AllocError)>
        requires sound { IsSound (plain item) }
        requires text { IsTextIfKept work (state self.old) (plain item) text.now }
        ensures answer { IfOk result (λ answer. answer ≡ work.answer_of (state self.old) (plain item)) }
        ensures after { OnOk result (state self.new ≡ work.after (state self.old) (plain item)) }
        ensures refused { IfErr result (λ back. (back.0 ≡ item) × IsSame self.old self.new) };

    /// Whether an item that was answered so is kept.
    fn is_kept(answer: &Self::Answer) -> bool
        ensures { result ≡ work.keeps answer.now };

    /// How the items of a chronicle grow, and that a text is that of one item.
    ghost lawful: { IsLawful work };

    /// Where nothing happened, a chronicle knows what it knew.
    ghost same: { (old new : Self) → IsSame old new → state new ≡ state old };

    /// Between two calls nothing happens.
    ghost unmoved: { (one : Self) → IsSame one one };
}
