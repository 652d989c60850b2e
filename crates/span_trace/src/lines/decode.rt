//! One line of the input, as a setup call or a step.

ghost use Rattle.std.specs.Prelude.{◌≡◌, ◌⊎◌, true, Some, None, Err, IfOk, IfErr};
ghost use Rattle.std.specs.Str.{IsUtf8};
ghost use Rattle.serde_json.specs.Data.{Data};
ghost use Rattle.serde_json.specs.Read.{read as read_text};
ghost use Rattle.serde_json.specs.View.{view};
ghost use Rattle.serde_json.specs.Written.{has_float};

mod members;
mod route;
mod setup;
mod sink;
mod stack;
mod step;
mod value;

use crate::lines::fault::LineFault;
use members::Members;
use serde_json::Value as Json;
pub use setup::{CallsiteLine, LaneLine, Setup};
use setup::{callsite_line, lane_line, shelf_line};
pub use sink::{FolderLine, QueueLine, SinkLine};
use stack::stack_line;
pub use stack::{FormatName, OutputLine, SpanEvent, StackLine, TimeLine};
use std::alloc::Global;
use step::step_line;
pub use step::{NamedValue, RecordLine, StepLine, SwapLine};

/// A line of the input.
#[derive(Drop)]
pub enum Line {
    Setup(Setup),
    Step(StepLine),
}

/// Whether some number in the value, at any depth, is no whole number of 64 bits.
#[tactic(auto, using(crate::proofs::lines::Floats::array_floats, crate::proofs::lines::Floats::object_floats, crate::proofs::lines::Floats::no_floats_left))]
fn has_float(value: &Json) -> bool
    ensures { result ≡ has_float (view value.now) }
{
    match value {
        Json::Null | Json::Bool(_) | Json::String(_) => false,
        Json::Number(number) => number.is_f64(),
        Json::Array(items) => {
            for item in items {
                if has_float(item) {
                    return true;
                }
            }
            false
        }
        Json::Object(members) => {
            for item in members.values() {
                if has_float(item) {
                    return true;
                }
            }
            false
        }
    }
}

/// The line as JSON.
fn parse(alloc: Global, bytes: &[u8]) -> Result<Json, LineFault>
    ensures ok { IfOk result (λ value. read_text bytes.now ≡ Some (view value)) }
    ensures err { IsUtf8 bytes.now → IfErr result (λ fault. (fault ≡ LineFault.OutOfMemory)
        ⊎ ((fault ≡ LineFault.NotReadable) × (read_text bytes.now ≡ None))) }
{
    let Ok(text) = str::from_utf8(bytes) else {
        return Err(LineFault::NotReadable);
    };
    match Json::from_str(alloc, text) {
        Ok(value) => Ok(value),
        Err(error) if error.is_memory() => Err(LineFault::OutOfMemory),
        Err(_) => Err(LineFault::NotReadable),
    }
}

/// Reads one line. Value lists name the fields of the first callsite in `setup` with the step's id, those of
/// a record the fields of any callsite.
///
/// # Errors
///
/// A line that is no JSON is not readable. In other lines numbers are looked at first, then keys and types.
pub fn decode_line(alloc: Global, setup: &[Setup], bytes: &[u8]) -> Result<Line, LineFault>
    // A line that is text and no JSON is not readable, unless there was no memory.
    ensures malformed { IsUtf8 bytes.now → read_text bytes.now ≡ None →
        (result ≡ Err LineFault.NotReadable) ⊎ (result ≡ Err LineFault.OutOfMemory) }

    // A float in a line of JSON is told ahead of other faults, unless there was no memory.
    ensures float { (value : Data) → IsUtf8 bytes.now → read_text bytes.now ≡ Some value → has_float value ≡ true →
        (result ≡ Err LineFault.FloatNumber) ⊎ (result ≡ Err LineFault.OutOfMemory) }
{
    let value = parse(alloc, bytes)?;
    if has_float(&value) {
        return Err(LineFault::FloatNumber);
    }
    line_of(alloc, setup, Members::of(&value)?)
}

fn line_of(alloc: Global, setup: &[Setup], members: Members<'_>) -> Result<Line, LineFault> {
    match members.text("do")? {
        "stack" => Ok(Line::Setup(Setup::Stack(stack_line(alloc, members)?))),
        "callsite" => Ok(Line::Setup(Setup::Callsite(callsite_line(alloc, members)?))),
        "lane" => Ok(Line::Setup(Setup::Lane(lane_line(alloc, members)?))),
        "shelf" => Ok(Line::Setup(Setup::Shelf(shelf_line(members)?))),
        word => Ok(Line::Step(step_line(alloc, setup, word, members)?)),
    }
}
