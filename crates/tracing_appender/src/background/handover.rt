//! How a worker comes to its writer.

use std::sync::{Condvar, Mutex, Wait};

/// A place for a writer, for which the worker waits. The writer is put there only once the worker's thread stands, so
/// that it comes back where no thread can be made.
#[derive(Drop)]
pub(crate) struct Handover<W> {
    place: Mutex<Option<W>>,
    put: Condvar,
}

impl<W> Handover<W> {
    pub(crate) fn new() -> Handover<W> {
        Handover {
            place: Mutex::new(None),
            put: Condvar::new(),
        }
    }
}

impl<W: Drop> Handover<W> {
    pub(crate) fn give<R: Wait>(&self, rt: &R, writer: W) {
        let mut place = self.place.lock(rt);
        *place = Some(writer);
        drop(place);
        self.put.notify_all();
    }

    pub(crate) fn receive<R: Wait>(&self, rt: &R) -> W {
        for _ in rt.forever() {
            let place = self.place.lock(rt);
            let mut place = self.put.wait_while(rt, place, |place| place.is_none());
            if let Some(writer) = place.take() {
                return writer;
            }
        }
        unreachable!()
    }
}
