//! The texts of fields, with the visitors and formatters that write them; and makers of writers, which take lines, with their routes.
#![tactic(auto)]

mod cold_path;
mod default_fields;
mod displayed;
mod error;
mod escape;
mod field;
mod field_text;
mod format_fields;
mod formatted_fields;
mod json_fields;
mod json_members;
mod json_object;
mod json_text;
mod laws;
mod makers;
mod members;
mod pretty_fields;
mod record_fields;
mod settings;
mod style;
mod visitors;
mod writer;

pub use cold_path::{out_of_memory, refused};
pub use default_fields::DefaultFields;
pub use error::FormatError;
pub use escape::{is_plain_json, push_json_inside, push_json_rest, push_json_string};
pub use field::{
    AppendField, Delimited, FieldClosure, FieldFn, FieldFnVisitor, MakeExt, MakeOutput,
    MakeVisitor, VisitDelimited, VisitFmt, VisitOutput, VisitWrite, WriteField, WritePiece,
    debug_fn,
};
pub use format_fields::FormatFields;
pub use formatted_fields::FormattedFields;
pub use json_fields::JsonFields;
pub use json_members::push_json_members;
pub use laws::{
    fields_are_harmless, lists_of_strings_are_json, messages_and_errors_are_harmless,
    numbers_are_json, objects_are_json, objects_keep_last_values, sanitized_texts_are_harmless,
    texts_are_strings, values_are_json,
};
pub use makers::{
    BadRoute, BoxMakeWriter, ClosureWriter, EitherWriter, LineTaker, MakeWriter, MakeWriterExt,
    MetadataTest, OptionalWriter, OrElse, Route, Tee, WithFilter, WithMaxLevel, WithMinLevel,
};
pub use pretty_fields::PrettyFields;
pub use record_fields::RecordFields;
pub use settings::Settings;
pub use style::{push_bold, push_dimmed, push_italic, push_styled};
pub use visitors::alt::{Alt, Messages};
pub use visitors::default::DefaultVisitor;
pub use visitors::json::JsonVisitor;
pub use visitors::pretty::PrettyVisitor;
pub use writer::Writer;
