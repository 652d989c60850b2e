//! How texts are written, as numbers that slots keep.
ghost use Rattle.std.specs.Prelude.{◌≡◌};
ghost use Rattle.event_formatter_lines.specs.slots.FieldsAndTimings.{number_of, settings_of};

use event_formatter_text::Settings;

/// The number that is kept: 1 with styles, and 2 more where the text is sanitized.
pub(crate) fn number_of(settings: Settings) -> u64
    ensures { result ≡ number_of settings }
{
    let styles = if settings.styles { 1 } else { 0 };
    let sanitizes = if settings.sanitizes { 2 } else { 0 };
    styles + sanitizes
}

/// What a number that is kept says.
pub(crate) fn settings_of(number: u64) -> Settings
    ensures { result ≡ settings_of number }
{
    Settings {
        styles: number == 1 || number == 3,
        sanitizes: number == 2 || number == 3,
    }
}
