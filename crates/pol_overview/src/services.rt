//! The services of a module.
ghost use Rattle.std.specs.Prelude.{◌≡◌, ◌∷◌, ◌++◌, map, OnOk};
ghost use Rattle.json.specs.Token as token;
ghost use Rattle.mtp_desc.specs.PlainService.{plain_service};
ghost use Rattle.event_json.specs.Written.{whole};
ghost use Rattle.pol_core.specs.Plants.{plant_history};
ghost use Rattle.pol_record.specs.Objects.{data_tokens};
ghost use Rattle.pol_overview.specs.Lists.{each_data};
ghost use Rattle.pol_overview.specs.Modules.{control_data, service_data, service_object, sight_data};

use crate::allowing::Allowing;
use crate::may::may_of;
use chart_cursor::Sight;
use event_json::{mode_word, origin_word};
use json::Writer;
use mtp_assembly::ServiceControl;
use mtp_codes::Name;
use mtp_desc::Service;
use pol_core::Plant;
use pol_record::write_text;
use std::alloc::AllocError;

/// Writes a whole number under a key.
pub fn write_number(writer: &mut Writer, key: &str, number: u32) -> Result<(), AllocError>
    ensures tokens { OnOk result (writer.new.tokens
        ≡ writer.old.tokens ++ token.key key.now ∷ data_tokens (whole number)) }
    ensures before { writer.new.before ≡ writer.old.before }
{
    writer.key(key)?;
    writer.u64(number as u64)
}

fn write_control(writer: &mut Writer, control: &ServiceControl) -> Result<(), AllocError>
    ensures tokens { OnOk result (writer.new.tokens ≡ writer.old.tokens ++ data_tokens (control_data control.now)) }
    ensures before { writer.new.before ≡ writer.old.before }
{
    writer.begin_object()?;
    write_number(writer, "CommandEn", control.mask)?;
    write_text(writer, "Mode", mode_word(control.mode))?;
    write_number(writer, "ProcedureCur", control.procedure as u32)?;
    write_text(writer, "Src", origin_word(control.origin))?;
    write_number(writer, "StateCur", control.state.code())?;
    writer.end_object()
}

/// Writes what is seen of a service: what it reported last, or null.
pub fn write_sight(writer: &mut Writer, sight: &Sight) -> Result<(), AllocError>
    ensures tokens { OnOk result (writer.new.tokens ≡ writer.old.tokens ++ data_tokens (sight_data sight.now)) }
    ensures before { writer.new.before ≡ writer.old.before }
{
    match sight {
        Sight::Is(view) => write_control(writer, &view.control),
        Sight::Unreported | Sight::Away => writer.null(),
    }
}

#[tactic(auto, using(crate::proofs::Tokens::service_tokens))]
fn write_seen(writer: &mut Writer, may: u32, service: Name, sight: &Sight) -> Result<(), AllocError>
    ensures tokens { OnOk result (writer.new.tokens
        ≡ writer.old.tokens ++ data_tokens (service_object may service (sight_data sight.now))) }
    ensures before { writer.new.before ≡ writer.old.before }
{
    writer.begin_object()?;
    write_number(writer, "may", may)?;
    write_text(writer, "name", service.as_str())?;
    writer.key("view")?;
    write_sight(writer, sight)?;
    writer.end_object()
}

fn write_service<A: Allowing>(
    writer: &mut Writer,
    plant: &Plant,
    allowing: &A,
    tag: Name,
    service: &Service,
) -> Result<(), AllocError>
    ensures tokens { OnOk result (writer.new.tokens ≡ writer.old.tokens
        ++ data_tokens (service_data (A.allows allowing.now) (plant_history plant.now) tag (plain_service service.now))) }
    ensures before { writer.new.before ≡ writer.old.before }
{
    let may = may_of(plant, allowing, tag, service.name);
    let sight = plant.view(tag, service.name);
    write_seen(writer, may, service.name, &sight)
}

/// Writes the services of a module.
pub fn write_services<A: Allowing>(
    writer: &mut Writer,
    plant: &Plant,
    allowing: &A,
    tag: Name,
    services: &[Service],
) -> Result<(), AllocError>
    ensures tokens { OnOk result (writer.new.tokens ≡ writer.old.tokens
        ++ data_tokens (each_data (service_data (A.allows allowing.now) (plant_history plant.now) tag)
        (map plain_service services.now))) }
    ensures before { writer.new.before ≡ writer.old.before }
{
    writer.begin_array()?;
    for service in services {
        write_service(writer, plant, allowing, tag, service)?;
    }
    writer.end_array()
}
