//! A replay on a ledger that is kept, under the policy of its plant.
ghost use Rattle.std.specs.Prelude.{◌≡◌, ◌++◌, None, Some, IfOk, IfErr, Ok, Err, OnOk, true};
ghost use Rattle.std.specs.Option.{option_map};
ghost use Rattle.kept_jobs.specs.Keeping.{Admits};
ghost use Rattle.mtp_json.specs.declared.fault.JsonFault.{JsonFault as json_fault};
ghost use Rattle.pol_jobs.specs.Faults.{FailedSo, RefusedFor};
ghost use Rattle.pol_jobs.specs.InputLines.{plain_line};
ghost use Rattle.pol_ledger.specs.Ledgers.{ledger_state};
ghost use Rattle.pol_ledger.specs.Work.{items_of, ledger_work};
ghost use Rattle.pol_rights.specs.PlainPlantPolicy.{plain_plant_policy};
ghost use Rattle.pol_rights.specs.declared.plant_policy.PlantPolicy.{PlantPolicy as plant_policy};
ghost use Rattle.pol_operate.specs.Questions.{told_by};
ghost use Rattle.pol_operate.specs.Work.{RefusesBy, ledger_by, policy_by, policy_said, reply_by};

use crate::asking::ask;
use crate::closing::close;
use crate::fault::DiskFailed;
use crate::questions::{answer_question, asks};
use crate::telling::put_kept_line;
use crate::verdicts::verdict_under;
use event_json::LineFault;
use mtp_json::{FaultKind, JsonFault, JsonRefusal};
use named_lines::{Named, NamedLines};
use pol_disk::Disk;
use pol_guard::{put_denial_line, whole};
use pol_io::Sink;
use pol_jobs::{InputLine, LineJob, PutFault, Stop};
use pol_kept::Kept;
use pol_ledger::Ledger;
use pol_policy::Verdict;
use pol_record::put_fault_line;
use pol_replay::{Answering, answer_line, is_some_line};
use pol_rights::{PlantPolicy, read_plant_policy};
use std::alloc::Global;

/// The job on an operated plant: its first line that isn't blank is the policy, and each other line is at fault,
/// denied, or asked of the ledger. What is asked is kept with what else is at hand before anything of it is answered.
/// It closes with the line of each batch and the end line. Where the disk fails it stops, and its store is closed.
pub struct Operating<D: Disk> {
    /// The memory that it takes.
    pub alloc: Global,
    /// The policy, once a line said it.
    pub policy: Option<PlantPolicy>,
    /// The ledger and its disk.
    pub store: Kept<D, Ledger>,
}

// The policy that a line says.
fn policy_said(
    alloc: Global,
    line: InputLine<'_>,
) -> Result<PlantPolicy, Stop<JsonFault, DiskFailed>>
    ensures says { IfOk result (λ policy. policy_said (plain_line line.entry) ≡ Ok (plain_plant_policy policy)) }
    ensures refused { IfErr result (RefusedFor (λ fault. policy_said (plain_line line.entry) ≡ Err fault)) }
    ensures unfailed { IfErr result (FailedSo ⊥) }
{
    let InputLine::Text(text) = line else {
        return Err(Stop::Refused(whole(alloc, FaultKind::TooLong)));
    };
    match read_plant_policy(alloc, text) {
        Ok(policy) => Ok(policy),
        Err(JsonRefusal::Fault(fault)) => Err(Stop::Refused(fault)),
        Err(JsonRefusal::Memory) => Err(Stop::Memory),
    }
}

impl<D: Disk> Operating<D> {
    // Takes the policy that a line says, and answers how much is kept; a blank line says none.
    fn begin(
        &mut self,
        line: InputLine<'_>,
        out: &mut Vec<u8>,
    ) -> Result<(), Stop<JsonFault, DiskFailed>>
        requires { self.old.policy ≡ None }
        ensures line { OnOk result (out.new.items ≡ out.old.items
            ++ reply_by None (ledger_state self.old.store.chronicle) (plain_line line.entry)) }
        ensures policy { OnOk result (option_map plain_plant_policy self.new.policy
            ≡ policy_by None (plain_line line.entry)) }
        ensures accepts { OnOk result ((fault : json_fault) → ¬ RefusesBy None (plain_line line.entry) fault) }
        ensures refused { IfErr result (RefusedFor (RefusesBy None (plain_line line.entry))) }
        ensures unfailed { IfErr result (FailedSo ⊥) }
        ensures store { self.new.store ≡ self.old.store }
    {
        if !is_some_line(line) {
            return Ok(());
        }
        let policy = policy_said(self.alloc, line)?;
        put_kept_line(self.alloc, out, self.store.chronicle())?;
        self.policy = Some(policy);
        Ok(())
    }

    // Puts what is replied to a line that asks behind what a buffer holds; nothing before a policy is known.
    fn tell(
        &self,
        line: InputLine<'_>,
        out: &mut Vec<u8>,
    ) -> Result<(), Stop<JsonFault, DiskFailed>>
        ensures line { OnOk result (out.new.items ≡ out.old.items
            ++ told_by (option_map plain_plant_policy self.now.policy) (ledger_state self.now.store.chronicle)
            (plain_line line.entry)) }
        ensures failed { IfErr result (FailedSo (self.now.store.closed ≡ true)) }
        ensures unrefused { IfErr result (RefusedFor (λ _. ⊥)) }
    {
        if let Some(policy) = &self.policy {
            answer_question(self.alloc, out, policy, self.store.chronicle(), line)?;
        }
        Ok(())
    }

    // Answers a line behind the policy: what it asks, or by what it says.
    #[inline(always)]
    fn answer(
        &mut self,
        line: InputLine<'_>,
        out: &mut Vec<u8>,
    ) -> Result<(), Stop<JsonFault, DiskFailed>>
        requires known { (one : plant_policy) × (self.old.policy ≡ Some one) }
        ensures line { OnOk result (out.new.items ≡ out.old.items
            ++ reply_by (option_map plain_plant_policy self.old.policy) (ledger_state self.old.store.chronicle)
            (plain_line line.entry)) }
        ensures policy { self.new.policy ≡ self.old.policy }
        ensures ledger { OnOk result (ledger_state self.new.store.chronicle
            ≡ ledger_by (option_map plain_plant_policy self.old.policy) (ledger_state self.old.store.chronicle)
            (plain_line line.entry)) }
        ensures admits { Admits ledger_work ledger_state self.old.store self.new.store
            (items_of (ledger_by (option_map plain_plant_policy self.old.policy)
            (ledger_state self.old.store.chronicle) (plain_line line.entry))) }
        ensures failed { IfErr result (FailedSo (self.new.store.closed ≡ true)) }
        ensures unrefused { IfErr result (RefusedFor (λ _. ⊥)) }
    {
        if asks(line) {
            return self.tell(line, out);
        }
        answer_line::<NamedLines, _>(self.alloc, line, self, out)
    }

    /// The disk, once the job is done with.
    pub fn into_disk(self) -> D
        ensures { result ≡ self.store.disk }
    {
        let Operating {
            alloc: _,
            policy: _,
            store,
        } = self;
        let (_ledger, disk) = store.into_parts();
        disk
    }
}

impl<D: Disk> Answering<NamedLines> for Operating<D> {
    type Halt = Stop<JsonFault, DiskFailed>;

    ghost use Rattle.std.specs.Prelude.{◌≡◌, refl};
    ghost use Rattle.named_lines.specs.Named.{named_of};
    ghost use Rattle.pol_replay.specs.Meanings.{meaning_met};
    ghost use Rattle.pol_operate.specs.Answered.{IsAnswered, IsHalted};
    ghost use Rattle.pol_operate.specs.Answering.{answered_blank};

    ghost Answers = { λ before now held holds line. (now.policy ≡ before.policy)
        × IsAnswered before.policy before.store now.store held holds (meaning_met named_of line) };

    ghost Halts = { λ before now line stop. (now.policy ≡ before.policy)
        × IsHalted before.policy before.store now.store (meaning_met named_of line) stop };

    #[inline(always)]
    fn said(
        &mut self,
        _line: &[u8],
        said: Named,
        out: &mut Vec<u8>,
    ) -> Result<(), Stop<JsonFault, DiskFailed>> {
        match verdict_under(&self.policy, &said) {
            Some(Verdict::Denied(rule)) => Ok(put_denial_line(self.alloc, out, rule)?),
            Some(Verdict::Allowed(_)) | None => ask(self.alloc, &mut self.store, said, out),
        }
    }

    fn fault(
        &mut self,
        _line: InputLine<'_>,
        fault: LineFault,
        out: &mut Vec<u8>,
    ) -> Result<(), Stop<JsonFault, DiskFailed>> {
        put_fault_line(self.alloc, out, &fault)?;
        Ok(())
    }

    fn no_memory(&self) -> Stop<JsonFault, DiskFailed> {
        Stop::Memory
    }

    ghost answers_blank = { λ operating held line blank.
        (refl, answered_blank operating.policy operating.store held line blank) };
}

impl<D: Disk> LineJob for Operating<D> {
    type Refusal = JsonFault;

    type Failure = DiskFailed;

    const SETTLES_EACH: bool = false;

    const HANDS_ON_EACH: bool = false;

    ghost use Rattle.std.specs.Prelude.{◌≡◌, true, false};
    ghost use Rattle.kept_jobs.specs.Going.{goes_nowhere};
    ghost use Rattle.kept_jobs.specs.Keeping.{GoesOn, job_state};
    ghost use Rattle.kept_jobs.specs.Telling.{telling};
    ghost use Rattle.pol_ledger.specs.Work.{ledger_work};
    ghost use Rattle.pol_operate.specs.Operated.{known_items, known_of};
    ghost use Rattle.pol_operate.specs.Work.{Known, operate_work};

    ghost SETTLES_EACH = { false };

    ghost HANDS_ON_EACH = { false };

    ghost State = { Known };

    ghost state = { λ operating. known_of operating.policy operating.store };

    ghost work = { operate_work };

    ghost Did = { λ first now settled waiting whole.
        GoesOn ledger_work operate_work known_items (telling D.bytes D.images D.moment D.left_since D.faults)
        (job_state (known_of first.policy first.store) first.store)
        (job_state (known_of now.policy now.store) now.store) settled waiting whole };

    ghost did_nothing = { λ operating. goes_nowhere ledger_work operate_work known_items
        (telling D.bytes D.images D.moment D.left_since D.faults) D.only_now
        (job_state (known_of operating.policy operating.store) operating.store) };

    ghost HasFailed = { λ operating. operating.store.closed ≡ true };

    fn reply(
        &mut self,
        line: InputLine<'_>,
        out: &mut Vec<u8>,
    ) -> Result<(), Stop<JsonFault, DiskFailed>> {
        match self.policy {
            Some(_) => self.answer(line, out),
            None => self.begin(line, out),
        }
    }

    fn settle(&mut self) -> Result<(), DiskFailed> {
        match self.store.commit() {
            Ok(()) => Ok(()),
            Err(_fault) => Err(DiskFailed),
        }
    }

    fn end(&mut self) -> Result<(), Stop<JsonFault, DiskFailed>> {
        match self.policy {
            Some(_) => Ok(()),
            None => Err(Stop::Refused(whole(self.alloc, FaultKind::Missing))),
        }
    }

    #[tactic(auto, using(pol_jobs::proofs::Closing::closes_with, pol_jobs::proofs::Closing::closes_part))]
    fn close<K: Sink>(&mut self, sink: &mut K) -> Result<(), PutFault> {
        close(self.alloc, self.store.chronicle(), sink)
    }
}
