//! Makers of the visitors that write fields.
ghost use Rattle.std.specs.Prelude.{◌≡◌, true};
ghost use Rattle.event_formatter_text.specs.Writers.{plainly};

use crate::field::make_visitor::MakeVisitor;
use crate::{
    DefaultFields, DefaultVisitor, JsonFields, JsonVisitor, PrettyFields, PrettyVisitor, Writer,
};

impl<'w> MakeVisitor<Writer<'w>> for DefaultFields {
    type Visitor = DefaultVisitor<'w>;

    ghost makes = { λ _ target visitor. (visitor.writer ≡ target) × (visitor.is_empty ≡ true) };

    fn make_visitor(&self, target: Writer<'w>) -> DefaultVisitor<'w> {
        DefaultVisitor::new(target, true)
    }
}

impl<'w> MakeVisitor<Writer<'w>> for PrettyFields {
    type Visitor = PrettyVisitor<'w>;

    ghost makes = { λ _ target visitor. (visitor.writer ≡ plainly target) × (visitor.is_empty ≡ true) };

    fn make_visitor(&self, target: Writer<'w>) -> PrettyVisitor<'w> {
        PrettyVisitor::new(target, true)
    }
}

/// The members stand in the order of the visit, with no braces around them.
impl<'w> MakeVisitor<Writer<'w>> for JsonFields {
    type Visitor = JsonVisitor<'w>;

    ghost makes = { λ _ target visitor. (visitor.writer ≡ target) × (visitor.is_empty ≡ true) };

    fn make_visitor(&self, target: Writer<'w>) -> JsonVisitor<'w> {
        JsonVisitor::new(target, true)
    }
}
