//! The words of the command line: what `pol` is asked to do.
//!
//! It knows nothing of the jobs themselves. `read_words` answers the task that the words ask for, as `clap`'s written
//! meaning of the command reads them (`specs/Words.antt`).
//!
//! Tried in `io_examples`.
#![tactic(auto)]

ghost use Rattle.std.specs.Prelude.{◌≡◌, ℕ, [], None, IfOk, IfErr, MatchOption, option_and_then, option_map};
ghost use Rattle.pol_arguments.specs.Words.{form_named, option_rule, pol, texts_of, Gives, IsCount, IsSeed, Means};
ghost use Rattle.pol_arguments.specs.declared.Task.{Task};
ghost use Rattle.clap.specs.Words.{app_of, fault_of, found_of, matches_of, rows_of, with_rule};

use clap::error::ErrorKind;
use clap::{Arg, ArgAction, ArgMatches, Command};
use std::alloc::{AllocError, Global};

/// A job that one thread does from beginning to end.
#[derive(Clone, Copy, Debug, PartialEq, Eq)]
pub enum SerialTask {
    /// `--job replay`: answer each line of a journal.
    Replay,
    /// `--job demo --seed N`: answer the demo journal of this seed, and count the answers.
    Demo(u32),
    /// `--job audit`: read what the plant prints, and say whether it is a true history.
    Audit,
    /// `--job attest`: an audit that says which bytes it read.
    Attest,
    /// `--job find`: answer a journal in silence, and say how each recipe could be bound then.
    Find,
    /// `--job guard`: answer each line of a journal whose desk lines name who asks, under a written policy.
    Guard,
    /// `--job migrate`: write a journal of version 1 as one of version 2.
    Migrate,
}

/// `--job plant`: run the site of the input with simulated modules.
#[derive(Clone, Copy, Debug, PartialEq, Eq)]
pub struct LiveTask {
    /// How many threads read the status board meanwhile: `--watchers N`, 0 where it isn't given.
    pub watchers: u16,
}

/// What the program is asked to do.
#[derive(Clone, Copy, Debug, PartialEq, Eq)]
pub enum Task {
    /// A job that waits for nobody.
    Serial(SerialTask),
    /// A job that may wait.
    Live(LiveTask),
    /// `--job keep`: answer each line of a journal on a plant that a disk keeps.
    Keep,
    /// `--job export`: write the events that the disk keeps as the lines of a journal.
    Export,
    /// `--job compact`: write those of these events that stay where the history is compacted.
    Compact,
    /// `--job operate`: answer each line of a journal, under the policy in front of it, on a plant that a ledger keeps.
    Operate,
}

/// How many watchers there may be.
const MOST_WATCHERS: u16 = 16;

/// Why the words give no task.
#[derive(Clone, Copy, Debug, PartialEq, Eq)]
pub enum WordFault {
    /// The words ask for no task.
    Refused,
    /// There was no memory to read them.
    Memory,
}

// The command with one more option, which takes one value.
fn with_option<'a>(
    alloc: Global,
    command: Command<'a>,
    name: &'a str,
) -> Result<Command<'a>, AllocError>
    ensures { IfOk result (λ new. app_of new ≡ with_rule (app_of command.entry) (option_rule name.now)) }
{
    command.arg(Arg::new(alloc, name).long(name).action(ArgAction::Set))
}

// One simple command whose options each take one value; help and version are switched off.
#[tactic(auto, unfolding(crate::specs::Words::pol))]
fn command<'a>(alloc: Global) -> Result<Command<'a>, AllocError>
    ensures { IfOk result (λ command. app_of command ≡ pol) }
{
    let job = Arg::new(alloc, "job")
        .long("job")
        .action(ArgAction::Set)
        .required(true);
    let command = Command::new(alloc, "pol")
        .disable_help_flag(true)
        .disable_version_flag(true)
        .arg(job)?;
    let command = with_option(alloc, command, "seed")?;
    with_option(alloc, command, "watchers")
}

#[tactic(auto, unfolding(crate::specs::Words::pol))]
fn matches<'a>(alloc: Global, words: &'a [String]) -> Result<ArgMatches<'a>, WordFault>
    ensures ok { IfOk result (λ found. (fault_of pol (texts_of words.now) ≡ [])
        × (rows_of (found_of found) ≡ matches_of pol (texts_of words.now))) }
    ensures refused { IfErr result (λ fault. fault ≡ WordFault.Refused → fault_of pol (texts_of words.now) ≡ [] → ⊥) }
{
    let Ok(command) = command(alloc) else {
        return Err(WordFault::Memory);
    };
    match command.try_get_matches_from(words) {
        Ok(matches) => Ok(matches),
        Err(error) => {
            if error.kind() == ErrorKind::OutOfMemory {
                Err(WordFault::Memory)
            } else {
                Err(WordFault::Refused)
            }
        }
    }
}

// The number of a seed, in decimal.
fn seed_of(text: &str) -> Option<u32>
    ensures { MatchOption result ((seed : ℕ) → IsSeed seed text.now → ⊥) (λ seed. IsSeed seed text.now) }
{
    text.parse().ok()
}

// The number of watchers, in decimal: none where no text is given.
fn count_of(text: Option<&str>) -> Option<u16>
    ensures { MatchOption result
        ((count : ℕ) → IsCount count (option_map (λ text. text.now) text.entry) → ⊥)
        (λ count. IsCount count (option_map (λ text. text.now) text.entry)) }
{
    let Some(text) = text else {
        return Some(0);
    };
    let count = text.parse().ok()?;
    if count > MOST_WATCHERS {
        return None;
    }
    Some(count)
}

// What a job takes beside its name.
#[derive(Clone, Copy)]
enum JobForm {
    // Nothing.
    Alone(Task),
    // A seed.
    Seeded,
    // A number of watchers.
    Watched,
}

// The form of the job that this word names, where one is given.
fn form_of(word: Option<&str>) -> Option<JobForm>
    ensures { result ≡ option_and_then form_named (option_map (λ text. text.now) word.entry) }
{
    match word? {
        "replay" => Some(JobForm::Alone(Task::Serial(SerialTask::Replay))),
        "demo" => Some(JobForm::Seeded),
        "audit" => Some(JobForm::Alone(Task::Serial(SerialTask::Audit))),
        "attest" => Some(JobForm::Alone(Task::Serial(SerialTask::Attest))),
        "find" => Some(JobForm::Alone(Task::Serial(SerialTask::Find))),
        "guard" => Some(JobForm::Alone(Task::Serial(SerialTask::Guard))),
        "migrate" => Some(JobForm::Alone(Task::Serial(SerialTask::Migrate))),
        "plant" => Some(JobForm::Watched),
        "keep" => Some(JobForm::Alone(Task::Keep)),
        "export" => Some(JobForm::Alone(Task::Export)),
        "compact" => Some(JobForm::Alone(Task::Compact)),
        "operate" => Some(JobForm::Alone(Task::Operate)),
        _ => None,
    }
}

// The plant with so many watchers, in decimal.
fn plant_of(watchers: Option<&str>) -> Option<Task>
    ensures { MatchOption result
        ((task : Task) → Gives JobForm.Watched None (option_map (λ text. text.now) watchers.entry) task → ⊥)
        (Gives JobForm.Watched None (option_map (λ text. text.now) watchers.entry)) }
{
    let watchers = count_of(watchers)?;
    Some(Task::Live(LiveTask { watchers }))
}

// The task of a job of this form, where it takes these values.
fn task_of(form: JobForm, seed: Option<&str>, watchers: Option<&str>) -> Option<Task>
    ensures { MatchOption result
        ((task : Task) → Gives form (option_map (λ text. text.now) seed.entry)
        (option_map (λ text. text.now) watchers.entry) task → ⊥)
        (Gives form (option_map (λ text. text.now) seed.entry) (option_map (λ text. text.now) watchers.entry)) }
{
    match (form, seed, watchers) {
        (JobForm::Alone(task), None, None) => Some(task),
        (JobForm::Seeded, Some(text), None) => {
            let seed = seed_of(text)?;
            Some(Task::Serial(SerialTask::Demo(seed)))
        }
        (JobForm::Watched, None, watchers) => plant_of(watchers),
        _ => None,
    }
}

/// The task that the words ask for; the first word is the program's name. Refused are exactly the words that ask for no
/// task: those that `clap` refuses for another cause than memory, a job that doesn't exist, a demo without a seed from
/// 0 to 4294967295, another job with a seed, a plant with watchers other than 0 to 16, and another job with watchers.
pub fn read_words(alloc: Global, words: &[String]) -> Result<Task, WordFault>
    ensures ok { IfOk result (Means (texts_of words.now)) }
    ensures refused { IfErr result (λ fault. fault ≡ WordFault.Refused → (task : Task)
        → Means (texts_of words.now) task → ⊥) }
{
    let matches = matches(alloc, words)?;
    let Some(form) = form_of(matches.get_str("job")) else {
        return Err(WordFault::Refused);
    };
    match task_of(form, matches.get_str("seed"), matches.get_str("watchers")) {
        Some(task) => Ok(task),
        None => Err(WordFault::Refused),
    }
}
