// A callsite that owns what it is made of.
ghost use Rattle.tracing_core_fields.specs.requests.Interests.{PlainInterest};

use tracing_core_fields::{Callsite, FieldSet, Identifier, Interest, Kind, Level, Metadata};

#[derive(Drop)]
pub struct OwnedCallsite {
    identifier: u64,
    level: Level,
    interest: Interest,
}

impl OwnedCallsite {
    pub fn new(identifier: u64, level: Level) -> OwnedCallsite {
        OwnedCallsite {
            identifier,
            level,
            interest: Interest::never(),
        }
    }
}

impl Callsite for OwnedCallsite {
    ghost use Rattle.std.specs.Prelude.{true, false, [], None, codes};

    ghost metadata_of = { λ callsite. record {
      name = codes "made";
      target = codes "app";
      level = callsite.level;
      module_path = None;
      file = None;
      line = None;
      field_names = [];
      callsite = callsite.identifier;
      kind = record { is_event = true; is_span = false; is_hint = false };
    } };

    ghost interest_of = { λ callsite. callsite.interest };

    fn set_interest(&mut self, interest: Interest) {
        self.interest = interest;
    }

    fn metadata(&self) -> Metadata<'_> {
        Metadata::new(
            "made",
            "app",
            self.level,
            None,
            None,
            None,
            FieldSet::new(&[], Identifier(self.identifier)),
            Kind::EVENT,
        )
    }
}
