//! The lines of a finder, each a JSON object in compact text and a line feed.
ghost use Rattle.std.specs.Prelude.{◌≡◌, ◌∷◌, ◌++◌, IfOk, OnOk};
ghost use Rattle.json.specs.Token as token;
ghost use Rattle.pol_events.specs.ByRole.{by_role, with_bind};
ghost use Rattle.event_json.specs.Written.{written_binds};
ghost use Rattle.pol_record.specs.Objects.{data_tokens};
ghost use Rattle.pol_record.specs.Texts.{watch_tokens};
ghost use Rattle.pol_find.specs.Lines.{bad_object, bad_text, bind_object, names_data, short_object};

use json::Writer;
use mtp_codes::Name;
use pol_events::Bind;
use pol_record::{ended_line, write_binds, write_text};
use std::alloc::{AllocError, Global};
use std::cmp::Ordering;

// Puts a bind at its place among binds in byte order of their roles.
fn put_bind(sorted: &mut Vec<Bind>, bind: Bind) -> Result<(), AllocError>
    ensures { OnOk result (sorted.new.items ≡ with_bind bind sorted.old.items) }
{
    for place in 0..sorted.len() {
        match bind.role.cmp(&sorted[place].role) {
            Ordering::Less => {
                sorted.insert(place, bind)?;
                return Ok(());
            }
            Ordering::Equal => return Ok(()),
            Ordering::Greater => {}
        }
    }
    sorted.push(bind)?;
    Ok(())
}

/// The binds in byte order of their roles.
pub(crate) fn by_role(alloc: Global, binds: Vec<Bind>) -> Result<Vec<Bind>, AllocError>
    ensures { IfOk result (λ sorted. sorted.items ≡ by_role binds.items) }
{
    let mut left = binds;
    let mut sorted = Vec::new(alloc);
    while let Some(bind) = left.pop() {
        put_bind(&mut sorted, bind)?;
    }
    Ok(sorted)
}

// Writes names as a list of texts.
fn write_names(writer: &mut Writer, names: &[Name]) -> Result<(), AllocError>
    ensures tokens { OnOk result (writer.new.tokens ≡ writer.old.tokens ++ data_tokens (names_data names.now)) }
    ensures before { writer.new.before ≡ writer.old.before }
{
    writer.begin_array()?;
    for name in names {
        writer.string(name.as_str())?;
    }
    writer.end_array()
}

// Writes names under a key.
fn write_list(writer: &mut Writer, key: &str, names: &[Name]) -> Result<(), AllocError>
    ensures tokens { OnOk result (writer.new.tokens
        ≡ writer.old.tokens ++ token.key key.now ∷ data_tokens (names_data names.now)) }
    ensures before { writer.new.before ≡ writer.old.before }
{
    writer.key(key)?;
    write_names(writer, names)
}

/// Writes the object of a recipe that can be bound so.
#[tactic(auto, using(crate::proofs::Tokens::bind_tokens))]
pub(crate) fn write_bound(
    writer: &mut Writer,
    recipe: Name,
    binds: &[Bind],
) -> Result<(), AllocError>
    ensures tokens { OnOk result (writer.new.tokens
        ≡ writer.old.tokens ++ data_tokens (bind_object (written_binds binds.now) recipe)) }
    ensures before { writer.new.before ≡ writer.old.before }
{
    writer.begin_object()?;
    writer.key("bind")?;
    write_binds(writer, binds)?;
    write_text(writer, "recipe", recipe.as_str())?;
    writer.end_object()
}

/// Writes what could be watched, if anything could.
pub(crate) fn write_watch(writer: &mut Writer, watches: &[Bind]) -> Result<(), AllocError>
    ensures tokens { OnOk result (writer.new.tokens ≡ writer.old.tokens ++ watch_tokens watches.now) }
    ensures before { writer.new.before ≡ writer.old.before }
{
    if watches.is_empty() {
        return Ok(());
    }
    writer.key("watch")?;
    write_binds(writer, watches)
}

/// Writes the object of a recipe that can't be bound: these roles fit these tags alone, which are fewer.
#[tactic(auto, using(crate::proofs::Tokens::short_tokens))]
pub(crate) fn write_short(
    writer: &mut Writer,
    recipe: Name,
    roles: &[Name],
    tags: &[Name],
) -> Result<(), AllocError>
    ensures tokens { OnOk result (writer.new.tokens
        ≡ writer.old.tokens ++ data_tokens (short_object recipe (names_data roles.now) (names_data tags.now))) }
    ensures before { writer.new.before ≡ writer.old.before }
{
    writer.begin_object()?;
    write_text(writer, "recipe", recipe.as_str())?;
    write_list(writer, "short", roles)?;
    write_list(writer, "tags", tags)?;
    writer.end_object()
}

#[tactic(auto, unfolding(crate::specs::Lines::bad_object))]
fn write_bad(writer: &mut Writer, bad: u64) -> Result<(), AllocError>
    ensures tokens { OnOk result (writer.new.tokens ≡ writer.old.tokens ++ data_tokens (bad_object bad)) }
    ensures before { writer.new.before ≡ writer.old.before }
{
    writer.begin_object()?;
    writer.key("bad")?;
    writer.u64(bad)?;
    writer.key("end")?;
    writer.boolean(true)?;
    writer.end_object()
}

/// The last line, with the number of lines at fault.
#[tactic(auto, using(pol_record::proofs::Tokens::line_of_tokens))]
pub(crate) fn bad_line(alloc: Global, bad: u64) -> Result<Vec<u8>, AllocError>
    ensures { IfOk result (λ line. line.items ≡ bad_text bad) }
{
    let mut writer = Writer::new(Vec::new(alloc));
    write_bad(&mut writer, bad)?;
    ended_line(writer)
}
