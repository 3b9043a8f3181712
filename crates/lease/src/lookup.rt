// What a table says of one offset, and how many counts it carries.
ghost use Rattle.std.specs.Prelude.{◌≡◌, length};
ghost use Rattle.types.specs.Keyed.{lookup};
ghost use Rattle.lease.specs.State.{Sound, view};
ghost use Rattle.lease.specs.Operations.{lease_of};
ghost use Rattle.lease.specs.Answers.{attempts_of};
ghost use Rattle.lease.specs.Lookup.{lease_in};

use crate::{Lease, LeaseTable, in_place};
use types::Offset;

impl LeaseTable {
    // The lease of an offset, run out or not.
    pub fn lease_of(self, offset: Offset) -> Option<Lease>
        requires { Sound self }
        ensures { lease_in result ≡ lease_of (view self) offset.0 }
    {
        in_place::lease_in_place(
            self.len,
            offset.0,
            &self.offsets,
            &self.slots,
            &self.generations,
            &self.attempt_starts,
            &self.deadlines,
            &self.deliveries,
            &self.workers,
        )
    }

    // The count that a restart carried over for an offset, until a first lease takes it over.
    pub fn carried_count(self, offset: Offset) -> Option<u32>
        requires { Sound self }
        ensures { attempts_of result ≡ lookup offset.0 (view self).carried }
    {
        in_place::carried_in_place(
            self.carried_len,
            offset.0,
            &self.carried_offsets,
            &self.carried_counts,
        )
    }

    // How many counts are carried.
    pub fn carried(self) -> usize
        requires { Sound self }
        ensures { result ≡ length (view self).carried }
    {
        self.carried_len
    }
}
