//! The line of a denial.
ghost use Rattle.std.specs.Prelude.{◌≡◌, ◌∷◌, ◌++◌, [], OnOk, codes, true};
ghost use Rattle.json.specs.Token as token;
ghost use Rattle.pol_record.specs.Objects.{data_tokens};
ghost use Rattle.pol_guard.specs.Denials.{denial_object, denial_text, rule_member, rule_tokens};

use json::Writer;
use mtp_codes::Name;
use std::alloc::{AllocError, Global};
use std::mem;

// Writes that a command is denied.
fn write_denied(writer: &mut Writer) -> Result<(), AllocError>
    ensures tokens { OnOk result (writer.new.tokens
        ≡ writer.old.tokens ++ token.key (codes "denied") ∷ token.boolean true ∷ []) }
    ensures before { writer.new.before ≡ writer.old.before }
{
    writer.key("denied")?;
    writer.boolean(true)
}

// Writes which rule denies it, where one does.
fn write_rule(writer: &mut Writer, rule: Option<Name>) -> Result<(), AllocError>
    ensures tokens { OnOk result (writer.new.tokens ≡ writer.old.tokens ++ rule_tokens rule) }
    ensures before { writer.new.before ≡ writer.old.before }
{
    let Some(rule) = rule else {
        return Ok(());
    };
    writer.key("policy")?;
    writer.string(rule.as_str())
}

#[tactic(auto, using(crate::proofs::Tokens::denial_tokens))]
fn write_denial(writer: &mut Writer, rule: Option<Name>) -> Result<(), AllocError>
    ensures tokens { OnOk result (writer.new.tokens
        ≡ writer.old.tokens ++ data_tokens (denial_object (rule_member rule))) }
    ensures before { writer.new.before ≡ writer.old.before }
{
    writer.begin_object()?;
    write_denied(writer)?;
    write_rule(writer, rule)?;
    writer.end_object()
}

/// Puts the line of a denial behind what a buffer holds: a command is denied by this rule, or because no rule allows
/// it. Where there is no memory, what the buffer held is lost.
#[tactic(auto, using(pol_record::proofs::Tokens::line_of_tokens))]
pub fn put_denial_line(
    alloc: Global,
    out: &mut Vec<u8>,
    rule: Option<Name>,
) -> Result<(), AllocError>
    ensures { OnOk result (out.new.items ≡ out.old.items ++ denial_text rule) }
{
    let mut writer = Writer::new(mem::replace(out, Vec::new(alloc)));
    write_denial(&mut writer, rule)?;
    *out = writer.into_inner();
    out.push(b'\n')?;
    Ok(())
}
