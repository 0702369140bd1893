//! Reading descriptions.

ghost use Rattle.std.specs.Prelude.{◌≡◌, IfOk, Ok, codes};
ghost use Rattle.semver.specs.Identifiers.{parts_of};
ghost use Rattle.serde_json.specs.View.{view};
ghost use Rattle.mtp_json.specs.ReadsAs.{ReadsAs};
ghost use Rattle.mtp_json.specs.Leaf.{parsed};
ghost use Rattle.mtp_json.specs.ReadResult.{here, under};
ghost use Rattle.mtp_desc.specs.PlainDescription.{plain_description};
ghost use Rattle.desc_json.specs.Form.{description_of};
ghost use Rattle.mtp_desc.specs.Plain.{PlainDescription};
ghost use Rattle.mtp_desc.specs.Version.{version_of};

use crate::services::ServiceJson;
use crate::variables::VariableJson;
use mtp_desc::{Description, LONGEST_VERSION, MOST_SERVICES, MOST_VARIABLES};
use mtp_json::{
    FaultKind, FromJson, JsonRefusal, keyed, list_of, list_or_none, name_at, nothing_but,
    object_here, short_at, unlike_under,
};
use semver::Version;
use serde_json::Value;
use std::alloc::{AllocError, Global};

fn version_under(alloc: Global, text: &str) -> Result<Version, JsonRefusal>
    ensures gives { ReadsAs parts_of result (under (codes "version") (here (parsed (version_of text.now)))) }
    ensures reads { IfOk result (λ version. version_of text.now ≡ Ok (parts_of version)) }
{
    match Version::parse(alloc, text) {
        Ok(version) => Ok(version),
        Err(error) => {
            if error == semver::Error::from(AllocError) {
                Err(JsonRefusal::Memory)
            } else {
                keyed(alloc, "version", Err(FaultKind::OutOfRange))
            }
        }
    }
}

/// The description of which this value is the form; else the first fault in reading order, with its path.
#[tactic(auto, unfolding(crate::specs::Form::description_of))]
pub fn read_description(alloc: Global, value: &Value) -> Result<Description, JsonRefusal>
    ensures { ReadsAs plain_description result (description_of (view value.now)) }
{
    object_here(alloc, value)?;
    let type_name = name_at(alloc, value, "type")?;
    let version_text = short_at(alloc, value, "version", LONGEST_VERSION)?;
    let version = version_under(alloc, version_text.as_str())?;
    let services = list_of::<ServiceJson>(alloc, value, "services", 1, MOST_SERVICES)?;
    let variables = list_or_none::<VariableJson>(alloc, value, "variables", 0, MOST_VARIABLES)?;
    nothing_but(alloc, value, "type version services variables")?;
    unlike_under::<ServiceJson>(alloc, "services", &services)?;
    unlike_under::<VariableJson>(alloc, "variables", &variables)?;
    Ok(Description {
        type_name,
        version_text,
        version,
        services,
        variables,
    })
}

/// The form of a description, for a description within another value.
pub struct DescriptionJson;

impl FromJson for DescriptionJson {
    type Item = Description;

    ghost Form = { PlainDescription };

    ghost plain = { plain_description };

    ghost form = { description_of };

    fn read(alloc: Global, value: &Value) -> Result<Description, JsonRefusal> {
        read_description(alloc, value)
    }
}
