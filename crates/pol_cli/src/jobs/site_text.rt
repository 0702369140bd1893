//! The text of a site: a site in its one line that isn't blank. It is read to its end, and nothing is replied.
ghost use Rattle.std.specs.Prelude.{◌≡◌, ◌≢◌, [], Ok, Err, Some, None, IfOk, IfErr, OnOk};
ghost use Rattle.mtp_json.specs.ReadsAs.{seen};
ghost use Rattle.pol_io.specs.Edge.{Edge};
ghost use Rattle.pol_io.specs.Known.{Between};
ghost use Rattle.pol_site.specs.PlainSite.{plain_site};
ghost use Rattle.pol_jobs.specs.Ends.{Ends, edge};
ghost use Rattle.pol_jobs.specs.LineWork.{AcceptsEnd};
ghost use Rattle.pol_cli.specs.SiteRuns.{planted};
ghost use Rattle.pol_cli.specs.SiteTexts.{Says, after_filled, line_says, one, site_work, lines_told, told};

use event_json::is_blank;
use mtp_json::{FaultKind, JsonFault, JsonRefusal, Path};
use pol_io::{Sink, SinkFault, Source};
use pol_jobs::{InputLine, JobFault, LineJob, PutFault, Stop, work};
use pol_site::Site;
use site_json::read_site;
use std::alloc::{AllocError, Global};
use std::convert::Infallible;
use std::mem;

/// What the lines of a site text have said so far.
#[derive(Drop)]
pub enum SiteLines {
    /// Nothing: all were blank.
    Nothing,
    /// A site: one line wasn't blank.
    Site(Site),
    /// A fault: one line wasn't blank.
    Fault(JsonFault),
    /// More than one line wasn't blank.
    More,
}

// A fault of the whole text.
fn whole(alloc: Global, kind: FaultKind) -> JsonFault
    ensures { result ≡ record { kind = kind; path = [] } }
{
    JsonFault {
        kind,
        path: Path::new(alloc),
    }
}

// What one line says.
#[tactic(auto, using(crate::proofs::SiteTexts::says_short))]
fn line_told(alloc: Global, line: &[u8]) -> Result<SiteLines, AllocError>
    ensures { IfOk result (λ lines. lines_told lines ≡ one (line_says (Some line.now))) }
{
    match read_site(alloc, line) {
        Ok(site) => Ok(SiteLines::Site(site)),
        Err(JsonRefusal::Fault(fault)) => Ok(SiteLines::Fault(fault)),
        Err(JsonRefusal::Memory) => Err(AllocError),
    }
}

impl SiteLines {
    // What the lines say, once one more line wasn't blank.
    fn after(&self, alloc: Global, line: &[u8]) -> Result<SiteLines, AllocError>
        ensures { IfOk result (λ lines. lines_told lines ≡ after_filled (lines_told self.now) (Some line.now)) }
    {
        match self {
            SiteLines::Nothing => line_told(alloc, line),
            _ => Ok(SiteLines::More),
        }
    }

    // What the lines say, once one more line wasn't blank and was too long.
    #[tactic(auto, using(crate::proofs::SiteTexts::says_long))]
    fn after_long(&self, alloc: Global) -> SiteLines
        ensures { lines_told result ≡ after_filled (lines_told self.now) None }
    {
        match self {
            SiteLines::Nothing => SiteLines::Fault(whole(alloc, FaultKind::TooLong)),
            _ => SiteLines::More,
        }
    }

    // The site that the whole text says, or its fault.
    fn told(self, alloc: Global) -> Result<Site, JsonFault>
        ensures { seen plain_site result ≡ told (lines_told self) }
    {
        match self {
            SiteLines::Nothing => Err(whole(alloc, FaultKind::Missing)),
            SiteLines::Site(site) => Ok(site),
            SiteLines::Fault(fault) => Err(fault),
            SiteLines::More => Err(whole(alloc, FaultKind::Unknown)),
        }
    }
}

// A site text that is read line by line.
#[derive(Drop)]
struct SiteText {
    alloc: Global,
    lines: SiteLines,
}

impl SiteText {
    // The site that was read, by a text that says one.
    #[tactic(auto, using(crate::proofs::SiteTexts::accepted_site))]
    fn into_site(self) -> Site
        requires { AcceptsEnd site_work (lines_told self.lines) }
        ensures { told (lines_told self.lines) ≡ Ok (plain_site result) }
    {
        match self.lines {
            SiteLines::Site(site) => site,
            _ => unreachable!(),
        }
    }
}

impl LineJob for SiteText {
    type Refusal = JsonFault;

    type Failure = Infallible;

    const SETTLES_EACH: bool = true;

    const HANDS_ON_EACH: bool = false;

    ghost use Rattle.std.specs.Prelude.{⊤, false, true};
    ghost use Rattle.pol_cli.specs.SiteTexts.{Told, site_work, lines_told};

    ghost SETTLES_EACH = { true };

    ghost HANDS_ON_EACH = { false };

    ghost State = { Told };

    ghost state = { λ text. lines_told text.lines };

    ghost work = { site_work };

    ghost Did = { λ _ _ _ _ _. ⊤ };

    ghost did_nothing = { λ _. tt };

    ghost HasFailed = { λ _. ⊤ };

    #[tactic(auto, using(crate::proofs::SiteTexts::after_blank, crate::proofs::SiteTexts::after_some))]
    fn reply(
        &mut self,
        line: InputLine<'_>,
        _out: &mut Vec<u8>,
    ) -> Result<(), Stop<JsonFault, Infallible>> {
        match line {
            InputLine::Text(text) if is_blank(text) => {}
            InputLine::Text(text) => self.lines = self.lines.after(self.alloc, text)?,
            InputLine::TooLong => self.lines = self.lines.after_long(self.alloc),
        }
        Ok(())
    }

    fn settle(&mut self) -> Result<(), Infallible> {
        Ok(())
    }

    #[tactic(auto, using(crate::proofs::SiteTexts::told_well, crate::proofs::SiteTexts::told_accepted))]
    fn end(&mut self) -> Result<(), Stop<JsonFault, Infallible>> {
        match mem::replace(&mut self.lines, SiteLines::Nothing).told(self.alloc) {
            Ok(site) => {
                self.lines = SiteLines::Site(site);
                Ok(())
            }
            Err(fault) => Err(Stop::Refused(fault)),
        }
    }

    fn close<K: Sink>(&mut self, _sink: &mut K) -> Result<(), PutFault> {
        Ok(())
    }
}

// Where what is replied to a site text goes: nowhere.
#[derive(Drop)]
struct Nowhere;

impl Sink for Nowhere {
    ghost use Rattle.std.specs.Prelude.{None};

    ghost held = { λ _. None };

    ghost faults = { λ _. 0 };

    fn write(&mut self, piece: &[u8]) -> Result<usize, SinkFault> {
        Ok(piece.len())
    }
}

/// The site that the source says, which is read to its end. A text that says none is refused.
pub fn read_text<S: Source>(
    alloc: Global,
    source: &mut S,
) -> Result<Site, JobFault<JsonFault, Infallible>>
    ensures says { IfOk result (λ site.
        Between (Says (Ok (plain_site site))) (S.left source.old) (S.left source.new)) }
    ensures well { OnOk result (S.faults source.new ≡ S.faults source.old) }
    ensures ends { IfErr result (λ fault. (sink : Edge) → Ends planted
        (edge (S.left source.old) (S.faults source.old)) (edge (S.left source.new) (S.faults source.new))
        sink sink (Err fault)) }
    ensures unwritten { IfErr result (λ fault. fault ≢ JobFault.Write) }
{
    let mut text = SiteText {
        alloc,
        lines: SiteLines::Nothing,
    };
    work(alloc, &mut text, source, &mut Nowhere)?;
    Ok(text.into_site())
}
