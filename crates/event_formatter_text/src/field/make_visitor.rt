//! Makers of visitors.
ghost use Rattle.std.specs.Prelude.{◌≡◌};
ghost use Rattle.event_formatter_text.specs.field.VisitResults.{VisitsMade};

use crate::field::delimited::Delimited;
use crate::field::visit_output::VisitOutput;
use crate::{Alt, Messages, RecordFields};
use tracing_core_fields::Visit;

/// Makes visitors that write to a target.
pub trait MakeVisitor<T> {
    /// What takes the values of fields.
    type Visitor: Visit;

    // Which visitor it may make for a target.
    ghost makes: { Self → T → Self.Visitor → Type 0 };

    /// A visitor that writes to the target.
    fn make_visitor(&self, target: T) -> Self::Visitor
        ensures { makes self.now target result };
}

/// Makes a visitor, and visits with it.
pub trait MakeOutput<T, Out>: MakeVisitor<T>
where
    Self::Visitor: VisitOutput<Out>,
{
    /// Makes a visitor that writes to the target, lets it take all values of the fields, and gives what the
    /// visit comes to.
    ///
    /// # Errors
    ///
    /// The first refusal, which ends the visit.
    fn visit_with<R: RecordFields>(
        &self,
        target: T,
        fields: &R,
    ) -> Result<Out, <Self::Visitor as Visit>::Error>
        ensures { VisitsMade (Self.makes self.now target) Self.Visitor.shows Self.Visitor.finishes
            (R.values fields.now) result };
}

impl<T, Out, M: MakeVisitor<T>> MakeOutput<T, Out> for M
where
    M::Visitor: VisitOutput<Out>,
{
    fn visit_with<R: RecordFields>(
        &self,
        target: T,
        fields: &R,
    ) -> Result<Out, <M::Visitor as Visit>::Error> {
        self.make_visitor(target).visit(fields)
    }
}

/// Combinations of makers.
pub trait MakeExt: Sized {
    /// Makes visitors that take a debug value by its alternate text.
    fn debug_alt(self) -> Alt<Self>
        ensures { result.0 ≡ self };

    /// Makes visitors that take a text named `message` as a debug value of its characters.
    fn display_messages(self) -> Messages<Self>
        ensures { result.0 ≡ self };

    /// Makes visitors that write the delimiter between each two fields.
    fn delimited<D>(self, delimiter: D) -> Delimited<D, Self>
        ensures { (result.delimiter ≡ delimiter) × (result.inner ≡ self) };
}

impl<M> MakeExt for M {
    fn debug_alt(self) -> Alt<M> {
        Alt::new(self)
    }

    fn display_messages(self) -> Messages<M> {
        Messages::new(self)
    }

    fn delimited<D>(self, delimiter: D) -> Delimited<D, M> {
        Delimited::new(delimiter, self)
    }
}
