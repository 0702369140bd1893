//! What a batch does next, by its cursor.
ghost use Rattle.std.specs.Prelude.{◌≡◌, List, map, None};
ghost use Rattle.chart_core.specs.Active.{active_steps};
ghost use Rattle.chart_core.specs.Charts.{plain_chart};
ghost use Rattle.chart_core.specs.Valid.{IsValid};
ghost use Rattle.chart_core.specs.Standing.{StandsFor};
ghost use Rattle.chart_core.specs.declared.entry.LogEntry.{LogEntry};
ghost use Rattle.chart_core.specs.declared.next.Next.TheVariants.{Waiting};
ghost use Rattle.chart_core.specs.declared.why.Why.TheVariants.{Frozen};
ghost use Rattle.chart_cursor.specs.Holding.{flag_at, is_unasked, numbered, under_way};
ghost use Rattle.chart_cursor.specs.Logs.{active};
ghost use Rattle.chart_cursor.specs.Next.{next_after};
ghost use Rattle.chart_cursor.specs.NextEntry.{did_or, first_broken, first_hold, first_unhold, run_next, unless_whole};
ghost use Rattle.chart_cursor.specs.Running.{first_placed, is_wanted};
ghost use Rattle.chart_cursor.specs.Sights.{tag_of};
ghost use Rattle.pol_runs.specs.Stopping.{behind, stop_found};

use chart_core::{Next, Outcome, Why};
use chart_cursor::{Cursor, CursorNext, RunningStep, Seen, run_next, stop_step};
use mtp_codes::Name;

// The tag of the module that plays the role; a role without one stands for itself.
fn tag_of<S: Seen>(seen: &S, role: Name) -> Name
    ensures { result ≡ tag_of (S.sights seen.now) role }
{
    match seen.tag(role) {
        Some(tag) => tag,
        None => role,
    }
}

/// What a batch that is being stopped does next, by its first active step; where there is none, the batch is closed.
pub fn stop_found<S: Seen>(step: Option<RunningStep>, seen: &S, broken: bool) -> Next
    ensures { result ≡ stop_found (S.sights seen.now) broken step }
{
    match step {
        None if broken => Next::Closed(Outcome::Broken),
        None => Next::Closed(Outcome::Stopped),
        Some(step) => stop_step(
            step.name,
            step.service,
            tag_of(seen, step.role),
            seen.view(step.role, step.service),
        ),
    }
}

/// What a frozen batch whose services are held does next, by the number of the first node whose step may still be
/// active and by the flags of the steps that were asked.
pub fn hold_on<S: Seen>(cursor: &Cursor, seen: &S, from: u32, asked: &[bool]) -> Next
    ensures { (word : List LogEntry) → StandsFor (plain_chart cursor.now.chart) cursor.now.marks word
        → result ≡ did_or (first_hold (S.sights seen.now) (map (λ placed. placed.step)
        (numbered (is_unasked from asked.now) (active_steps (plain_chart cursor.now.chart) word)))) (Waiting Frozen) }
{
    match cursor.first_hold(seen, from, asked) {
        Some(entry) => Next::Did(entry),
        None => Next::Waiting(Why::Frozen),
    }
}

/// What a batch that is neither frozen nor stopped does next, by the flags of the steps that were held.
pub fn go_on<S: Seen>(cursor: &Cursor, seen: &S, held: &[bool]) -> Next
    ensures { (word : List LogEntry) → StandsFor (plain_chart cursor.now.chart) cursor.now.marks word
        → result ≡ did_or (first_broken (S.sights seen.now) (active (plain_chart cursor.now.chart) word))
        (run_next (unless_whole (first_unhold (S.sights seen.now) (under_way (S.sights seen.now)
        (map (λ placed. placed.step)
        (numbered (flag_at held.now) (active_steps (plain_chart cursor.now.chart) word)))))
        (next_after (plain_chart cursor.now.chart) word (S.sights seen.now)))) }
{
    let (broken, ready) = cursor.broken_and_next(seen);
    if let Some(entry) = broken {
        return Next::Did(entry);
    }
    match cursor.first_unhold(seen, held) {
        CursorNext::Whole => run_next(ready),
        next => run_next(next),
    }
}

/// The number behind the node of the first active step from a number on; that number, where there is none.
pub fn behind(cursor: &Cursor, from: u32) -> u32
    requires valid { IsValid (plain_chart cursor.now.chart) }
    requires stands { (word : List LogEntry) × StandsFor (plain_chart cursor.now.chart) cursor.now.marks word }
    ensures { (word : List LogEntry) → StandsFor (plain_chart cursor.now.chart) cursor.now.marks word
        → result ≡ behind from (first_placed (is_wanted from None) (active_steps (plain_chart cursor.now.chart) word)) }
{
    match cursor.next_step(from, None) {
        Some(step) => step.number + 1,
        None => from,
    }
}
