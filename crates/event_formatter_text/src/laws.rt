//! Laws of the texts.
ghost use Rattle.event_formatter_text.specs.JsonLaws.{InsidesAreJson, ListsOfStringsAreJson, MembersAreJson, NumbersAreJson};
ghost use Rattle.event_formatter_text.specs.JsonLaws.{ObjectsAreJson, StringsAreJson};
ghost use Rattle.event_formatter_text.specs.JsonLaws.{TextsAreStrings, ValuesAreJson};
ghost use Rattle.event_formatter_text.specs.HarmlessTexts.{FieldsAreHarmless, ListsAreHarmless};
ghost use Rattle.event_formatter_text.specs.ObjectLaws.{ObjectKeysRise, ObjectsHaveLastValues};
ghost use Rattle.event_formatter_text.specs.TerminalControls.{ErrorTextsAreHarmless, ErrorsAreHarmless, MessagesAreHarmless};
ghost use Rattle.event_formatter_text.specs.TerminalControls.{SanitizedTextsAreHarmless, SourceTextsAreHarmless};

/// What stands for a text in a JSON string may stand there by JSON's grammar, and the string is a value of JSON.
#[tactic(auto, using(crate::proofs::JsonStrings::text_inside, crate::proofs::JsonObjects::string_is))]
pub fn texts_are_strings()
    ensures inside { TextsAreStrings }
    ensures value { StringsAreJson }
{}

/// Texts as an array of strings, a comma between each two, are a value of JSON.
#[tactic(auto, using(crate::proofs::JsonValues::lists_of_strings_are))]
pub fn lists_of_strings_are_json()
    ensures { ListsOfStringsAreJson }
{}

/// Members whose values are JSON make an object of JSON.
#[tactic(auto, using(crate::proofs::JsonObjects::objects_are, crate::proofs::JsonObjects::all))]
pub fn objects_are_json()
    ensures object { ObjectsAreJson }
    ensures inside { InsidesAreJson }
{}

/// What stands for values and for lists of values is JSON, where numbers are in the ranges of their types.
#[tactic(auto, using(crate::proofs::JsonValues::values_are, crate::proofs::JsonValues::members_are))]
pub fn values_are_json()
    ensures values { ValuesAreJson }
    ensures members { MembersAreJson }
{}

/// A number of 32 bits in decimal digits is JSON.
#[tactic(auto, using(crate::proofs::JsonValues::numbers_are))]
pub fn numbers_are_json()
    ensures { NumbersAreJson }
{}

/// No sanitized text steers a terminal.
#[tactic(auto, using(crate::proofs::TerminalControls::texts_are))]
pub fn sanitized_texts_are_harmless()
    ensures { SanitizedTextsAreHarmless }
{}

/// Where texts are sanitized and there are no styles, no message steers a terminal, nor does an error with its sources
/// under a name that doesn't, nor the texts of any error.
#[tactic(auto, using(crate::proofs::TerminalSafeFields::messages_are, crate::proofs::TerminalSafeFields::errors_are, crate::proofs::TerminalSafeFields::error_text_is, crate::proofs::TerminalSafeFields::source_texts_are))]
pub fn messages_and_errors_are_harmless()
    ensures messages { MessagesAreHarmless }
    ensures errors { ErrorsAreHarmless }
    ensures error_texts { ErrorTextsAreHarmless }
    ensures source_texts { SourceTextsAreHarmless }
{}

/// In an object of fields each key is less than the next one, byte by byte, and each key has the value of the last field of that name.
#[tactic(auto, using(crate::proofs::ObjectLaws::keys_rise, crate::proofs::ObjectLaws::have_last_values))]
pub fn objects_keep_last_values()
    // Where the keys of an object rise, they rise once more fields were put, and those of a new object rise.
    ensures keys { ObjectKeysRise }
    // A key has the value of the last field that was put under it, else what it had before.
    ensures values { ObjectsHaveLastValues }
{}

/// Where texts are sanitized and there are no styles, no field steers a terminal, nor does a list of fields, where no name does, nor any
/// debug value but a message. Numbers are in the ranges of their types.
#[tactic(auto, using(crate::proofs::HarmlessTexts::fields_are))]
pub fn fields_are_harmless()
    // A field as `name=value` or `name: value`, whatever kind of value it has.
    ensures fields { FieldsAreHarmless }
    // The text that is kept of a span's first fields, and that of an event's fields in a line.
    ensures lists { ListsAreHarmless }
{}
