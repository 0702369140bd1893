//! Which actors rest.
use std::alloc::{AllocError, Global};

/// For each actor that rests how many entries the history had when it came to rest.
#[derive(Drop)]
pub(crate) struct Notes {
    counts: Vec<Option<usize>>,
}

impl Notes {
    /// None of so many actors rests. AllocError where there is no memory.
    pub(crate) fn blank(alloc: Global, count: u32) -> Result<Notes, AllocError> {
        Ok(Notes {
            counts: vec![in alloc; None; count as usize]?,
        })
    }

    /// Whether the actor rests.
    pub(crate) fn rests(&self, actor: u32) -> bool {
        matches!(self.counts.get(actor as usize), Some(Some(_)))
    }

    /// Whether all actors rest whose number is at least this one.
    pub(crate) fn all_rest_from(&self, actor: u32) -> bool {
        self.counts.iter().skip(actor as usize).all(Option::is_some)
    }

    /// Whether all rest since the history had so many entries.
    pub(crate) fn all_rest_at(&self, entries: usize) -> bool {
        self.counts.iter().all(|count| *count == Some(entries))
    }

    // Notes this of an actor.
    fn set(&mut self, actor: u32, count: Option<usize>) {
        if let Some(kept) = self.counts.get_mut(actor as usize) {
            *kept = count;
        }
    }

    /// Notes that the actor rests since the history had so many entries.
    pub(crate) fn rest(&mut self, actor: u32, entries: usize) {
        self.set(actor, Some(entries));
    }

    /// Notes that the actor doesn't rest.
    pub(crate) fn wake(&mut self, actor: u32) {
        self.set(actor, None);
    }

    /// Notes that no actor rests.
    pub(crate) fn wake_all(&mut self) {
        self.counts.fill(None);
    }
}
