//! How texts are written.

/// How a [`Writer`](crate::Writer) writes.
#[derive(Clone, Copy, Debug, PartialEq, Eq)]
pub struct Settings {
    /// Whether pieces stand between the ANSI codes of their styles.
    pub styles: bool,
    /// Whether characters that steer a terminal are written out in messages and in the texts of errors.
    pub sanitizes: bool,
}
