//! Writing descriptions.

ghost use Rattle.std.specs.Prelude.{◌≡◌, IfOk, Ok, codes};
ghost use Rattle.serde_json.specs.Data.{member, no_members, object, string};
ghost use Rattle.serde_json.specs.View.{view};
ghost use Rattle.mtp_desc.specs.PlainDescription.{plain_description};
ghost use Rattle.desc_json.specs.Form.{description_of};
ghost use Rattle.mtp_desc.specs.Plain.{PlainDescription};
ghost use Rattle.desc_json.specs.Written.{written_description};

use crate::reading::DescriptionJson;
use crate::services::ServiceJson;
use crate::variables::VariableJson;
use mtp_codes::{Name, Short};
use mtp_desc::Description;
use mtp_json::{ToJson, write_list};
use serde_json::{Value, json};
use std::alloc::{AllocError, Global};

fn description_object(
    alloc: Global,
    services: Value,
    type_name: Name,
    variables: Value,
    version_text: Short,
) -> Result<Value, AllocError>
    ensures { IfOk result (λ value. view value ≡ object
        (member (codes "services") (view services)
        (member (codes "type") (string type_name)
        (member (codes "variables") (view variables)
        (member (codes "version") (string version_text) no_members))))) }
{
    let type_name = type_name.as_str();
    let version = version_text.as_str();
    json!(in alloc; {
        "services": services,
        "type": type_name,
        "variables": variables,
        "version": version
    })
}

#[tactic(auto, unfolding(crate::specs::Written::written_description))]
fn write_whole(alloc: Global, description: &Description) -> Result<Value, AllocError>
    ensures { IfOk result (λ value. view value ≡ written_description (plain_description description.now)) }
{
    let services = write_list::<ServiceJson>(alloc, &description.services)?;
    let variables = write_list::<VariableJson>(alloc, &description.variables)?;
    description_object(
        alloc,
        services,
        description.type_name,
        variables,
        description.version_text,
    )
}

/// The whole form of a description, with the text of the version that was read. The form of what is written is the
/// description again.
pub fn write_description(alloc: Global, description: &Description) -> Result<Value, AllocError>
    ensures value { IfOk result (λ value. view value ≡ written_description (plain_description description.now)) }
    ensures reads_back { IfOk result (λ value. description_of (view value) ≡ Ok (plain_description description.now)) }
{
    write_whole(alloc, description)
}

impl ToJson for DescriptionJson {
    type Item = Description;

    ghost Form = { PlainDescription };

    ghost plain = { plain_description };

    ghost written = { written_description };

    fn write(alloc: Global, item: &Description) -> Result<Value, AllocError> {
        write_description(alloc, item)
    }
}
