// A visitor that counts what it is given, up to a limit.
use crate::{DebugText, Field, Visit};

#[derive(Drop)]
pub struct Counted {
    pub seen: u64,
    pub limit: u64,
}

impl Visit for Counted {
    type Error = u64;

    ghost shows = { λ _ _ _ _ _. Unit {0} };

    fn record_debug(&mut self, _field: &Field<'_>, _value: &DebugText<'_>) -> Result<(), u64> {
        if self.seen >= self.limit {
            return Err(self.seen);
        }
        self.seen += 1;
        Ok(())
    }
}
