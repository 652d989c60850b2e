//! What levels and filters share when they are read.
ghost use Rattle.std.specs.Prelude.{◌≡◌};
ghost use Rattle.tracing_core_fields.specs.Text.{number_of_text, ReadsAsUsize};

// The number that the text writes, as Rust reads a `usize`.
pub(crate) fn number_in(text: &str) -> Option<usize>
    ensures { result ≡ number_of_text text.now }
{
    text.parse::<usize>().ok()
}

/// The numbers that levels and filters read are those that Rust's `usize` parsing reads.
pub fn numbers_are_read_as_usize()
    ensures { ReadsAsUsize }
{}
