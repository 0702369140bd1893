//! A site that is run to its end, in turn and by threads, and one that two threads of a test's own drive.
ghost use Rattle.std.specs.Prelude.{◌≡◌, ◌<◌, length, IfOk};
ghost use denote.Param.Send.{IsSend, IsSync};
ghost use Rattle.pol_site.specs.Actors.{actors};
ghost use Rattle.pol_site.specs.PlainSite.{plain_site};
ghost use Rattle.pol_live.specs.Seats.{AreSeated, actors_of};

use chart_core::Outcome;
use given::SITE;
use pol_events::{Answer, Event};
use pol_io::{Clock, MemoryClock};
use pol_live::{
    ActorSeat, Job, LivePlant, OpenGate, Placed, Ran, SeatOf, Turned, actors_of, run_in_turn,
    run_site,
};
use pol_site::Site;
use site_json::read_site;
use std::alloc::{AllocError, Global};
use std::marker::Brand;
use std::sync::atomic::{AtomicU64, Ordering};
use std::sync::ledger::Blank;
use std::sync::{Arc, Wait};
use std::test::*;
use std::thread;
use std::thread::Threads;

/// The site.
pub fn site(alloc: Global) -> Result<Site, Fail> {
    Ok(read_site(alloc, SITE.as_bytes()).ok().ok_or("no site")?)
}

/// How many batches were completed, and how many exchanges were begun and ended.
pub fn counts(ran: &Ran) -> [usize; 3] {
    let mut counts = [0usize, 0, 0];
    for entry in &ran.history {
        if matches!(entry.answer, Answer::Closed(Outcome::Completed)) {
            counts[0] = counts[0].saturating_add(1);
        }
        if matches!(entry.event, Event::ExchangeBegin { .. })
            && matches!(entry.answer, Answer::Ticket(_))
        {
            counts[1] = counts[1].saturating_add(1);
        }
        if matches!(entry.event, Event::ExchangeEnd { .. })
            && matches!(entry.answer, Answer::Done)
        {
            counts[2] = counts[2].saturating_add(1);
        }
    }
    counts
}

#[test]
fn batches_are_completed_and_a_module_is_exchanged(rt: HostRuntime) -> Result<(), Fail> {
    let alloc = rt.alloc();
    let clock = MemoryClock::new(vec![in alloc; 7u64, 8]?);
    let ran = run_in_turn(&rt, alloc, site(alloc)?, clock, &OpenGate)?;
    assert_eq!(rt; counts(&ran), [2, 1, 1]);
    assert_eq!(rt; ran.by.len(), ran.history.len());
    Ok(())
}

#[test]
fn threads_complete_the_batches_and_the_exchange(rt: HostRuntime) -> Result<(), Fail> {
    let alloc = rt.alloc();
    let clock = MemoryClock::new(vec![in alloc; 7u64, 8]?);
    let ran = run_site(&rt, alloc, site(alloc)?, 2, clock, &OpenGate)?;
    assert_eq!(rt; counts(&ran), [2, 1, 1]);
    assert_eq!(rt; ran.by.len(), ran.history.len());
    Ok(())
}

/// What the threads of a test share: a plant, and how many of the exchanger's first five turns each made an event that
/// was done.
#[derive(Drop)]
struct Watched<'a, J: Job, C: Clock + Send> {
    live: &'a LivePlant<J, C>,
    opened: AtomicU64,
}

/// 200 turns of one actor.
fn take_turns<J: Job, R: Wait, C: Clock + Send>(
    rt: &R,
    watched: &Watched<'_, J, C>,
    seat: ActorSeat<J>,
) -> ActorSeat<J>
    ensures { result.actor ≡ seat.actor }
{
    let mut seat = seat;
    for turn in 0..200u32 {
        let turned = watched.live.turn(rt, &mut seat);
        let done = matches!(
            turned,
            Ok(Turned::Made(Placed {
                answer: Answer::Done,
                ..
            }))
        );
        if turn < 5 && seat.actor() == 0 && done {
            let _before = watched.opened.fetch_add(1, Ordering::SeqCst);
        }
    }
    seat
}

/// The first two actors take their turns, each in a thread of its own; all seats come back in their order.
fn drive_two<J: Job + Send + Sync, R: Threads + Wait + Sync, C: Clock + Send>(
    rt: &R,
    alloc: Global,
    watched: &Watched<'_, J, C>,
    seats: Vec<ActorSeat<J>>,
) -> Result<Vec<ActorSeat<J>>, AllocError>
    requires seats { AreSeated (length (actors J.site)) seats.items }
    ensures { IfOk result (λ seats. AreSeated (length (actors J.site)) seats.items) }
{
    thread::scope(
        thread::scope_env(),
        rt,
        |scope| -> Result<Vec<ActorSeat<J>>, AllocError>
            requires { IsSync R.row × IsSend C.row × IsSend J.row × IsSync J.row
                × AreSeated (length (actors J.site)) seats.items }
            ensures { IfOk result (λ seats. AreSeated (length (actors J.site)) seats.items) }
        {
            let mut children = Vec::new(alloc);
            let mut here = Vec::new(alloc);
            for seat in seats {
                let actor = seat.actor();
                if actor > 1 || !here.is_empty() {
                    here.push(seat)?;
                    continue;
                }
                match scope.spawn_with(SeatOf(actor), move || take_turns(rt, watched, seat)) {
                    Ok(child) => children.push(child)?,
                    Err(refused) => here.push((refused.value)())?,
                }
            }
            let mut home = thread::join_promised(rt, children)?;
            home.append(&mut here)?;
            Ok(home)
        },
    )
}

/// One turn of the second actor, and how long its list is then.
fn turn_second<J: Job, R: Wait, C: Clock + Send>(
    rt: &R,
    live: &LivePlant<J, C>,
    seats: &mut Vec<ActorSeat<J>>,
) -> usize
    ensures { actors_of seats.new.items ≡ actors_of seats.old.items }
{
    if seats.len() < 2 {
        return 0;
    }
    let seat = &mut seats[1];
    let _turned = live.turn(rt, seat);
    seat.list().len()
}

/// The recipes and plugs of the exchanger's first five entries.
fn openings(alloc: Global, ran: &Ran) -> Result<String, AllocError> {
    let mut text = String::new(alloc);
    let mut left = 5u32;
    for (entry, maker) in ran.history.iter().zip(ran.by.iter()) {
        if *maker != 0 || left == 0 {
            continue;
        }
        left = left.saturating_sub(1);
        match &entry.event {
            Event::Recipe { recipe, .. } => text.push_str(recipe.as_str())?,
            Event::Plug { tag, .. } => text.push_str(tag.as_str())?,
            _ => text.push_str("another")?,
        }
        text.push_str(" ")?;
    }
    Ok(text)
}

/// Two threads drive the plant of a run, which is then closed.
fn two_threads<J: Job + Send + Sync, R: Threads + Wait + Sync>(
    rt: &R,
    alloc: Global,
    site: Site,
    blank: Blank,
) -> Result<String, Fail>
    requires blank { (blank.name ≡ J.name) × (blank.parts ≡ J.parts) × (J.parts ≡ length (actors J.site)) }
    requires site { plain_site site ≡ J.site }
{
    let site = Arc::new(alloc, site)?;
    let clock = MemoryClock::new(vec![in alloc; 7u64, 8]?);
    let (live, seats) = LivePlant::<J, MemoryClock>::new(alloc, site, clock, blank)?;
    let watched = Watched {
        live: &live,
        opened: AtomicU64::new(0),
    };
    let driven = drive_two(rt, alloc, &watched, seats);
    let opened = watched.opened.load(Ordering::SeqCst);
    drop(watched);
    let mut seats = driven?;
    let length = turn_second(rt, &live, &mut seats);
    if opened != 5 || length == 0 {
        return Err(Fail::from("the turns made too little"));
    }
    let ran = live.close(seats).ok().ok_or("a list strayed")?;
    Ok(openings(alloc, &ran)?)
}

#[test]
fn the_lists_of_two_threads_are_their_parts_of_the_history(rt: HostRuntime) -> Result<(), Fail> {
    let alloc = rt.alloc();
    let site = site(alloc)?;
    let blank = Blank::new(u64::from(actors_of(&site)));
    let openings = two_threads::<Brand, HostRuntime>(&rt, alloc, site, blank)?;
    assert_eq!(rt; openings.as_str(), "mix one M1 M2 M3 ");
    Ok(())
}
