//! Keys that a line names itself. Others stand in one text with what is behind them.
ghost use Rattle.std.specs.Prelude.{◌≡◌, ◌++◌, codes};
ghost use Rattle.event_formatter_lines.specs.Json.{key_text};
ghost use Rattle.event_formatter_lines.specs.Keys.{key_name, text_key_name};

/// A key of a line whose value is no text.
#[derive(Clone, Copy, PartialEq, Eq)]
pub(super) enum Key {
    Level,
    LineNumber,
    Span,
}

/// A key of a line, or of a span in it, whose value is a text.
#[derive(Clone, Copy, PartialEq, Eq)]
pub(super) enum TextKey {
    Target,
    Filename,
    ThreadName,
    ThreadId,
    Name,
    Field,
}

impl Key {
    /// The key with a colon, as it begins an object.
    #[inline(always)]
    #[tactic(auto, unfolding(crate::specs::Json::key_text))]
    pub(super) fn first(self) -> &'static str
        ensures { result.now ≡ key_text (key_name self) }
    {
        match self {
            Key::Level => "\"level\":",
            Key::LineNumber => "\"line_number\":",
            Key::Span => "\"span\":",
        }
    }

    /// The key with a colon, behind another member.
    #[inline(always)]
    #[tactic(auto, unfolding(crate::specs::Json::key_text))]
    pub(super) fn later(self) -> &'static str
        ensures { result.now ≡ codes "," ++ key_text (key_name self) }
    {
        match self {
            Key::Level => ",\"level\":",
            Key::LineNumber => ",\"line_number\":",
            Key::Span => ",\"span\":",
        }
    }
}

impl TextKey {
    /// The key with a colon and the quote that begins its text, as it begins an object.
    #[inline(always)]
    #[tactic(auto, unfolding(crate::specs::Json::key_text))]
    pub(super) fn first(self) -> &'static str
        ensures { result.now ≡ key_text (text_key_name self) ++ codes "\"" }
    {
        match self {
            TextKey::Target => "\"target\":\"",
            TextKey::Filename => "\"filename\":\"",
            TextKey::ThreadName => "\"threadName\":\"",
            TextKey::ThreadId => "\"threadId\":\"",
            TextKey::Name => "\"name\":\"",
            TextKey::Field => "\"field\":\"",
        }
    }

    /// The same behind another member.
    #[inline(always)]
    #[tactic(auto, unfolding(crate::specs::Json::key_text))]
    pub(super) fn later(self) -> &'static str
        ensures { result.now ≡ codes "," ++ (key_text (text_key_name self) ++ codes "\"") }
    {
        match self {
            TextKey::Target => ",\"target\":\"",
            TextKey::Filename => ",\"filename\":\"",
            TextKey::ThreadName => ",\"threadName\":\"",
            TextKey::ThreadId => ",\"threadId\":\"",
            TextKey::Name => ",\"name\":\"",
            TextKey::Field => ",\"field\":\"",
        }
    }
}
