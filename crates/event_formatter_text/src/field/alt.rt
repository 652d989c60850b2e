//! Visitors that take a debug value by its alternate text.

use crate::Alt;
use crate::field::make_visitor::MakeVisitor;
use crate::field::visit_output::{VisitFmt, VisitOutput, VisitWrite};

impl<T, M: MakeVisitor<T>> MakeVisitor<T> for Alt<M> {
    type Visitor = Alt<M::Visitor>;

    ghost makes = { λ maker target visitor. M.makes maker.0 target visitor.0 };

    fn make_visitor(&self, target: T) -> Alt<M::Visitor> {
        Alt::new(self.inner().make_visitor(target))
    }
}

impl<Out, V: VisitOutput<Out>> VisitOutput<Out> for Alt<V> {
    ghost finishes = { λ visitor out. V.finishes visitor.0 out };

    fn finish(self) -> Out {
        self.into_inner().finish()
    }
}

impl<V: VisitFmt> VisitFmt for Alt<V> {
    ghost appends = { λ before text answer after. V.appends before.0 text answer after.0 };

    fn write_str(&mut self, text: &str) -> Result<(), V::Error> {
        self.inner_mut().write_str(text)
    }
}

impl<V: VisitWrite> VisitWrite for Alt<V> {
    ghost appends_bytes = { λ before bytes answer after. V.appends_bytes before.0 bytes answer after.0 };

    fn write_all(&mut self, bytes: &[u8]) -> Result<(), V::Error> {
        self.inner_mut().write_all(bytes)
    }
}
