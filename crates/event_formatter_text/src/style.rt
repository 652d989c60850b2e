//! Pieces of text between the codes of a style.
ghost use Rattle.std.specs.Prelude.{◌≡◌, ◌++◌, OnOk, string_bytes};
ghost use Rattle.event_formatter_text.specs.Styles.{between, bold, dimmed, italic, styled};

use crate::settings::Settings;
use std::alloc::AllocError;

// Appends the text between the code and the one that ends a style. It stays out of the way of lines without styles.
#[inline(never)]
fn push_between(out: &mut String, start: &str, text: &str) -> Result<(), AllocError>
    ensures { OnOk result (string_bytes out.new ≡ string_bytes out.old ++ between start.now text.now) }
{
    out.push_str(start)?;
    out.push_str(text)?;
    out.push_str("\u{1b}[0m")
}

/// Appends the text between the code that begins a style and the one that ends it, where styles are on.
#[inline(always)]
#[tactic(auto, unfolding(crate::specs::Styles::styled))]
pub fn push_styled(
    out: &mut String,
    settings: Settings,
    start: &str,
    text: &str,
) -> Result<(), AllocError>
    ensures { OnOk result (string_bytes out.new ≡ string_bytes out.old ++ styled settings start.now text.now) }
{
    if settings.styles {
        return push_between(out, start, text);
    }
    out.push_str(text)
}

/// Appends the text, dimmed where styles are on.
#[inline(always)]
pub fn push_dimmed(out: &mut String, settings: Settings, text: &str) -> Result<(), AllocError>
    ensures { OnOk result (string_bytes out.new ≡ string_bytes out.old ++ dimmed settings text.now) }
{
    push_styled(out, settings, "\u{1b}[2m", text)
}

/// Appends the text, bold where styles are on.
#[inline(always)]
pub fn push_bold(out: &mut String, settings: Settings, text: &str) -> Result<(), AllocError>
    ensures { OnOk result (string_bytes out.new ≡ string_bytes out.old ++ bold settings text.now) }
{
    push_styled(out, settings, "\u{1b}[1m", text)
}

/// Appends the text, italic where styles are on.
#[inline(always)]
pub fn push_italic(out: &mut String, settings: Settings, text: &str) -> Result<(), AllocError>
    ensures { OnOk result (string_bytes out.new ≡ string_bytes out.old ++ italic settings text.now) }
{
    push_styled(out, settings, "\u{1b}[3m", text)
}
