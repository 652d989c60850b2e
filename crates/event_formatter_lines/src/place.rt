//! What the pretty format shows behind the fields of an event.

/// The thread of an event, as the format shows it.
#[derive(Clone, Copy, Debug)]
pub struct Thread<'a> {
    /// The name. `None` where it isn't shown, or where there is none.
    pub name: Option<&'a str>,
    /// The number. `None` where it isn't shown.
    pub id: Option<&'a str>,
}

/// Where an event happened. A part is `None` where it isn't shown or isn't known.
#[derive(Clone, Copy, Debug)]
pub struct Place<'a> {
    /// The file.
    pub file: Option<&'a str>,
    /// The line in the file. It is shown with the file alone.
    pub line: Option<u32>,
    /// The thread, where its name or its number is shown.
    pub thread: Option<Thread<'a>>,
}
