//! Makers of visitors, and visitors over other visitors.

mod alt;
mod closure;
mod delimited;
mod field_fn;
mod field_formatter;
mod make_visitor;
mod makers;
mod messages;
mod outputs;
mod target;
mod visit_output;
mod write_field;

pub use closure::{AppendField, FieldClosure};
pub use delimited::{Delimited, VisitDelimited};
pub use field_fn::{FieldFn, FieldFnVisitor, debug_fn};
pub use make_visitor::{MakeExt, MakeOutput, MakeVisitor};
pub use visit_output::{VisitFmt, VisitOutput, VisitWrite};
pub use write_field::{WriteField, WritePiece};
