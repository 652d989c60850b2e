//! What is known of an event beside its fields and spans.
ghost use Rattle.std.specs.Prelude.{◌≡◌, ◌++◌, OnOk, codes, string_bytes};
ghost use Rattle.std.specs.Option.{option_map};
ghost use Rattle.tracing_core_fields.specs.Level.{level_name};
ghost use Rattle.event_formatter_lines.specs.Heads.{in_five_places, level_piece, level_start, level_text, plain_piece, time_piece};

use event_formatter_text::{Settings, push_dimmed, push_styled};
use std::alloc::AllocError;
use tracing_core_fields::Level;

/// What is known of an event beside its fields and spans. A part is `None` where it isn't shown or isn't known.
#[derive(Clone, Copy, Debug)]
pub struct Head<'a> {
    /// The time.
    pub time: Option<&'a str>,
    /// The level.
    pub level: Option<Level>,
    /// The thread's name, as the format shows it.
    pub thread_name: Option<&'a str>,
    /// The thread's number, as the format shows it.
    pub thread_id: Option<&'a str>,
    /// The target.
    pub target: Option<&'a str>,
    /// The file.
    pub file: Option<&'a str>,
    /// The line in the file.
    pub line: Option<u32>,
}

/// Out of memory. A call of it tells the compiler which way is cold, so that pushes on the other way are inlined.
#[cold]
pub(crate) fn refused() -> AllocError {
    AllocError
}

// The code that begins the style of a level.
#[tactic(auto, unfolding(crate::specs::Heads::level_start))]
fn level_start(name: &str) -> &'static str
    ensures { result.now ≡ level_start name.now }
{
    match name {
        "ERROR" => "\u{1b}[31m",
        "WARN" => "\u{1b}[33m",
        "INFO" => "\u{1b}[32m",
        "DEBUG" => "\u{1b}[34m",
        _ => "\u{1b}[35m",
    }
}

/// A level's name in five places.
#[tactic(auto, unfolding(crate::specs::Heads::in_five_places))]
pub(crate) fn in_five_places(level: Level) -> &'static str
    ensures { result.now ≡ in_five_places (level_name level) }
{
    match level.as_str() {
        "INFO" => " INFO",
        "WARN" => " WARN",
        name => name,
    }
}

// A level's name in five places, and a space. All of them are of one length.
#[inline(always)]
#[tactic(auto, unfolding(crate::specs::Heads::in_five_places))]
fn level_and_space(level: Level) -> &'static str
    ensures { result.now ≡ in_five_places (level_name level) ++ codes " " }
{
    if level == Level::ERROR {
        "ERROR "
    } else if level == Level::WARN {
        " WARN "
    } else if level == Level::INFO {
        " INFO "
    } else if level == Level::DEBUG {
        "DEBUG "
    } else {
        // The proof sees by this call that no other level is left.
        let _name = level.as_str();
        "TRACE "
    }
}

// Appends the level in its style and a space.
#[inline(never)]
fn push_level_in_style(out: &mut String, settings: Settings, level: Level) -> Result<(), AllocError>
    ensures { OnOk result (string_bytes out.new ≡ string_bytes out.old ++ (level_text settings level ++ codes " ")) }
{
    push_styled(
        out,
        settings,
        level_start(level.as_str()),
        in_five_places(level),
    )?;
    out.push(' ')
}

/// Appends the level, where there is one, and a space.
///
/// # Errors
///
/// Out of memory. What was appended before is to be dropped.
#[inline(always)]
#[tactic(auto, unfolding(event_formatter_text::specs::Styles::styled))]
pub fn push_level(
    out: &mut String,
    settings: Settings,
    level: Option<Level>,
) -> Result<(), AllocError>
    ensures { OnOk result (string_bytes out.new ≡ string_bytes out.old ++ level_piece settings level) }
{
    let Some(level) = level else {
        return Ok(());
    };
    if settings.styles {
        return push_level_in_style(out, settings, level);
    }
    out.push_str(level_and_space(level))
}

/// Appends the time, dimmed, where there is one, and a space.
#[inline(always)]
pub(crate) fn push_time(
    out: &mut String,
    settings: Settings,
    time: Option<&str>,
) -> Result<(), AllocError>
    ensures { OnOk result (string_bytes out.new ≡ string_bytes out.old
        ++ time_piece settings (option_map (λ text. text.now) time.entry)) }
{
    let Some(time) = time else {
        return Ok(());
    };
    push_dimmed(out, settings, time)?;
    out.push(' ')
}

/// Appends the text as it is, where there is one, and a space.
#[inline(always)]
pub(crate) fn push_plain(out: &mut String, text: Option<&str>) -> Result<(), AllocError>
    ensures { OnOk result (string_bytes out.new ≡ string_bytes out.old
        ++ plain_piece (option_map (λ text. text.now) text.entry)) }
{
    let Some(text) = text else {
        return Ok(());
    };
    out.push_str(text)?;
    out.push(' ')
}
