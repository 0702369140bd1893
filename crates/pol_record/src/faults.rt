//! Faults of lines, written token by token.
ghost use Rattle.std.specs.Prelude.{◌≡◌, ◌++◌, OnOk};
ghost use Rattle.mtp_json.specs.PathText.{path_text};
ghost use Rattle.event_json.specs.Fields.{fields_of};
ghost use Rattle.pol_record.specs.Objects.{data_tokens, fields_data};
ghost use Rattle.pol_record.specs.Texts.{chart_fault_fields, fault_data, kind_name, node_fields, path_fields};

use crate::objects::write_fields;
use chart_core::ChartFault;
use event_json::{Fields, LineFault};
use json::Writer;
use mtp_json::{FaultKind, JsonFault};
use std::alloc::{AllocError, Global};

/// The name of a kind of fault of a text, as lines give it.
pub fn kind_name(kind: FaultKind) -> &'static str
    ensures { result.now ≡ kind_name kind }
{
    match kind {
        FaultKind::NotJson => "NotJson",
        FaultKind::Missing => "Missing",
        FaultKind::WrongKind => "WrongKind",
        FaultKind::OutOfRange => "OutOfRange",
        FaultKind::Unknown => "Unknown",
        FaultKind::Repeated => "Repeated",
        FaultKind::Unsound => "Unsound",
        FaultKind::BadChart => "BadChart",
        FaultKind::TooLong => "TooLong",
    }
}

fn path_fields<'a>(kind: &'a str, path: &'a str) -> Fields<'a>
    ensures { fields_of result ≡ path_fields kind.now path.now }
{
    Fields::none().text("bad", kind).text("path", path)
}

fn write_json_fault(alloc: Global, writer: &mut Writer, fault: &JsonFault) -> Result<(), AllocError>
    ensures tokens { OnOk result (writer.new.tokens ≡ writer.old.tokens
        ++ data_tokens (fields_data (path_fields (kind_name fault.now.kind) (path_text fault.now.path)))) }
    ensures before { writer.new.before ≡ writer.old.before }
{
    let path = fault.path.text(alloc)?;
    let path = unsafe { std::str::from_utf8_unchecked(&path) };
    write_fields(writer, &path_fields(kind_name(fault.kind), path))
}

fn node_fields(fault: &'static str, node: u32) -> Fields<'static>
    ensures { fields_of result ≡ node_fields fault.now node }
{
    Fields::none()
        .text("bad", "BadChart")
        .text("fault", fault)
        .number("node", node)
}

fn chart_fault_fields(fault: ChartFault) -> Fields<'static>
    ensures { fields_of result ≡ chart_fault_fields fault }
{
    match fault {
        ChartFault::TooDeep { node } => node_fields("TooDeep", node),
        ChartFault::TooManySteps { node } => node_fields("TooManySteps", node),
        ChartFault::StepTwice { node } => node_fields("StepTwice", node),
        ChartFault::UnknownRole { node } => node_fields("UnknownRole", node),
        ChartFault::SameService { node } => node_fields("SameService", node),
        ChartFault::TooManyReads { node } => node_fields("TooManyReads", node),
    }
}

/// Writes a fault: its kind, and the text of its path; or what is wrong with a chart, and the number of its node.
pub fn write_fault(alloc: Global, writer: &mut Writer, fault: &LineFault) -> Result<(), AllocError>
    ensures tokens { OnOk result (writer.new.tokens ≡ writer.old.tokens ++ data_tokens (fault_data fault.now)) }
    ensures before { writer.new.before ≡ writer.old.before }
{
    match fault {
        LineFault::Json(fault) => write_json_fault(alloc, writer, fault),
        LineFault::Chart(fault) => write_fields(writer, &chart_fault_fields(*fault)),
        LineFault::TooLong => write_fields(writer, &path_fields("TooLong", "")),
    }
}
