// The records of links: link.rs, and what pipe.rs and valve.rs do with a text's figures.
ghost use Rattle.std.specs.Prelude.{◌≡◌};
ghost use Rattle.text_records.specs.Links.{pipe_status, valve_status, flow_of, last_setting, setting_of, pipe_record, valve_record, link_record_of};

use crate::figures::{diameter_at, feet_at};
use codes::{LinkKind, Status};
use constants::{Q_ZERO, SMALL_VALUE};
use line_fields::number_at;
use named_lines::Kind;
use pipe_lines::{PipeStatus, minor_loss, pipe_status};
use power::{PowerTable, PowerTable871};
use records::Link;
use status_lines::{Said, status_said};
use text_units::{Units, cubic_feet, first_flow, pressure_feet, resistance};
use word_places::LineWords;

// A pipe's status, Closed or Open, by the line that settled it last. A line of STATUS has two words, the pipe's own has more.
#[tactic(auto, unfolding(crate::specs::Links::pipe_status, crate::specs::Links::of_pipe, crate::specs::Links::of_said))]
fn status_of_pipe(said: &LineWords<'_>) -> Status
    ensures { result ≡ pipe_status said.now }
{
    if said.has(2) {
        return match pipe_status(said) {
            PipeStatus::Closed => Status::Closed,
            _ => Status::Open,
        };
    }
    match status_said(said) {
        Said::Closed => Status::Closed,
        _ => Status::Open,
    }
}

// A valve's status: Active by its own line or by a number, else fixed.
#[tactic(auto, unfolding(crate::specs::Links::valve_status, crate::specs::Links::fixed_by))]
fn status_of_valve(said: &LineWords<'_>) -> Status
    ensures { result ≡ valve_status said.now }
{
    if said.has(2) {
        return Status::Active;
    }
    match status_said(said) {
        Said::Closed => Status::FixedClosed,
        Said::Open => Status::FixedOpen,
        Said::Number => Status::Active,
    }
}

// The flow that a link starts with.
#[tactic(auto, unfolding(crate::specs::Links::flow_of, crate::specs::Links::is_closed, constants::specs::Constants::q_zero))]
fn link_flow(status: Status, diameter: f64) -> f64
    ensures { result ≡ flow_of status diameter }
{
    match status {
        Status::Closed | Status::FixedClosed => Q_ZERO,
        _ => first_flow(diameter),
    }
}

// The number that a valve is set to, by the line of STATUS that settled its status last or by its own.
#[tactic(auto, unfolding(crate::specs::Links::last_setting, crate::specs::Links::set_by))]
fn last_setting(words: &LineWords<'_>, said: &LineWords<'_>) -> f64
    ensures { result ≡ last_setting words.now said.now }
{
    if said.has(2) {
        return number_at(words, 5);
    }
    match status_said(said) {
        Said::Number => number_at(said, 1),
        _ => number_at(words, 5),
    }
}

// A setting in feet or cubic feet per second, by the valve's kind; that of a TCV as it is.
#[tactic(auto, unfolding(crate::specs::Links::setting_of))]
fn setting_of(kind: LinkKind, u: Units, x: f64) -> f64
    ensures { result ≡ setting_of kind u x }
{
    match kind {
        LinkKind::Fcv => cubic_feet(u, x),
        LinkKind::Tcv | LinkKind::Pcv => x,
        _ => pressure_feet(u, x),
    }
}

// A pipe: its minor loss goes in as it is written.
#[tactic(auto, unfolding(crate::specs::Links::pipe_record, crate::specs::Links::is_checked))]
fn pipe_record(
    words: &LineWords<'_>,
    said: &LineWords<'_>,
    start: usize,
    end: usize,
    u: Units,
    table: &PowerTable,
    table_871: &PowerTable871,
) -> Link
    ensures { result ≡ pipe_record u words.now said.now start end }
{
    let status = status_of_pipe(said);
    let diameter = diameter_at(words, 4, u);
    let length = feet_at(words, 3, u);
    let roughness = number_at(words, 5);
    Link {
        kind: LinkKind::Pipe,
        check: pipe_status(words) == PipeStatus::Checked,
        status: status,
        start: start,
        end: end,
        setting: 0.0,
        minor: minor_loss(words),
        diameter: diameter,
        resistance: resistance(length, diameter, roughness, table, table_871),
        flow: link_flow(status, diameter),
    }
}

// A valve: its kind says what its setting is.
#[tactic(auto, unfolding(crate::specs::Links::valve_record))]
fn valve_record(
    words: &LineWords<'_>,
    kind: LinkKind,
    said: &LineWords<'_>,
    start: usize,
    end: usize,
    u: Units,
) -> Link
    ensures { result ≡ valve_record kind u words.now said.now start end }
{
    let status = status_of_valve(said);
    let diameter = diameter_at(words, 3, u);
    let setting = last_setting(words, said);
    Link {
        kind,
        check: false,
        status: status,
        start: start,
        end: end,
        setting: setting_of(kind, u, setting),
        minor: number_at(words, 6),
        diameter: diameter,
        resistance: SMALL_VALUE,
        flow: link_flow(status, diameter),
    }
}

// The record of a link from its line and the line that settled its status last, which is its own or one of STATUS. What is no valve is a pipe.
#[tactic(auto, unfolding(crate::specs::Links::link_record_of))]
pub fn link_record(
    words: &LineWords<'_>,
    kind: Kind,
    said: &LineWords<'_>,
    start: usize,
    end: usize,
    u: Units,
    table: &PowerTable,
    table_871: &PowerTable871,
) -> Link
    ensures { result ≡ link_record_of kind u words.now said.now start end }
{
    match kind {
        Kind::Valve(valve) => valve_record(words, valve, said, start, end, u),
        _ => pipe_record(words, said, start, end, u, table, table_871),
    }
}
