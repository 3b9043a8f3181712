// The lists that a table takes and gives in lent memory, and the arrays that it gives them from.
ghost use Rattle.std.specs.Prelude.{◌≡◌, [], ◌∷◌};
ghost use Rattle.types.specs.Table.{answer};
ghost use Rattle.types.specs.Refused.{as_is};
ghost use Rattle.types.specs.Lists.{listed, numbers_of, entry_of, entries_of, ListsOffsets, ListsCounts};
ghost use Rattle.lease.specs.State.{Sound, view};
ghost use Rattle.lease.specs.Counts.{resume_attempts, attempt_counts, all_attempt_counts};
ghost use Rattle.lease.specs.Rest.{expired};
ghost use Rattle.lease.specs.Answers.{resume_of, Answers};
ghost use Rattle.tables.specs.Carried.{carried_in, Tidy};
ghost use Rattle.lease.specs.Helpers.{CarriesFrom, resumed_with};

use crate::{Answered, LeaseTable, in_place};
use tables::counts;
use tables::counts::Carried;
use types::lent::{AttemptCounts, OffsetList};
use types::refusals::Refusal;
use types::{Offset, Pair, lent};

impl LeaseTable {
    // Carries attempt counts over from before a restart: the next claim of an offset goes on from its count. A count of 0 says
    // nothing, and of two counts for an offset the last stays. Refused where more than 128 would be carried (19).
    pub fn resume_attempts(self, pairs: &[Pair]) -> Answered<Result<(), Refusal>>
        requires { Sound self }
        ensures { Answers (resume_of result.outcome) self result.table (resume_attempts (view self) (entries_of pairs.now)) }
    {
        let mut carried = self.carried_so_far();
        for pair in pairs {
            carried = counts::carry_pair(carried, *pair);
        }
        self.resumed(carried)
    }

    // The same for one pair.
    pub fn resume_pair(self, pair: Pair) -> Answered<Result<(), Refusal>>
        requires { Sound self }
        ensures { Answers (resume_of result.outcome) self result.table (resume_attempts (view self) (entry_of pair ∷ [])) }
    {
        let carried = counts::carry_pair(self.carried_so_far(), pair);
        self.resumed(carried)
    }

    // How often each message in flight was handed out, into a lent list. 20 where it doesn't fit.
    pub fn attempt_counts(self, out: &mut [Pair]) -> Result<usize, Refusal>
        requires { Sound self }
        ensures { answer (as_is result) (entries_of out.new) ≡ listed (attempt_counts (view self)) (entries_of out.old) }
    {
        lent::list_pairs(self.lease_counts(), out)
    }

    // The counts of all messages that were handed out and are not done, into a lent list: those in flight and the carried ones,
    // the larger count where an offset has both. 20 where it doesn't fit.
    pub fn all_attempt_counts(self, out: &mut [Pair]) -> Result<usize, Refusal>
        requires { Sound self }
        ensures { answer (as_is result) (entries_of out.new) ≡ listed (all_attempt_counts (view self)) (entries_of out.old) }
    {
        lent::list_pairs(self.all_counts(), out)
    }

    // The offsets whose leases have run out, into a lent list: a claim of one would hand it out again. 20 where it doesn't fit.
    pub fn expired(self, now: u64, out: &mut [Offset]) -> Result<usize, Refusal>
        requires { Sound self }
        ensures { answer (as_is result) (numbers_of out.new) ≡ listed (expired (view self) now) (numbers_of out.old) }
    {
        lent::list_offsets(self.expired_list(now), out)
    }

    // The counts that are carried before any pair is taken in.
    fn carried_so_far(self) -> Carried
        requires { Sound self }
        ensures { CarriesFrom self result }
    {
        let offsets = self.carried_offsets;
        let counts = self.carried_counts;
        Carried {
            offsets,
            counts,
            len: self.carried_len,
            full: false,
        }
    }

    // The table with other carried counts, or refusal 19.
    fn resumed(mut self, carried: Carried) -> Answered<Result<(), Refusal>>
        requires { Sound self × Tidy carried }
        ensures { Answers (resume_of result.outcome) self result.table (resumed_with (view self) (carried_in carried)) }
    {
        if carried.full {
            return Answered {
                table: self,
                outcome: Err(Refusal::TooManyPairs),
            };
        }
        let offsets = carried.offsets;
        let counts = carried.counts;
        self.carried_offsets = offsets;
        self.carried_counts = counts;
        self.carried_len = carried.len;
        Answered {
            table: self,
            outcome: Ok(()),
        }
    }

    // How often each message in flight was handed out, in arrays.
    pub fn lease_counts(self) -> AttemptCounts
        requires { Sound self }
        ensures { ListsCounts result (attempt_counts (view self)) }
    {
        in_place::lease_counts_in_place(self.len, &self.offsets, &self.slots, &self.deliveries)
    }

    // The counts of all messages that were handed out and are not done, in arrays.
    pub fn all_counts(self) -> AttemptCounts
        requires { Sound self }
        ensures { ListsCounts result (all_attempt_counts (view self)) }
    {
        in_place::all_counts_in_place(
            self.len,
            self.carried_len,
            &self.offsets,
            &self.slots,
            &self.deliveries,
            &self.carried_offsets,
            &self.carried_counts,
        )
    }

    // The offsets whose leases have run out, in an array.
    pub fn expired_list(self, now: u64) -> OffsetList
        requires { Sound self }
        ensures { ListsOffsets result (expired (view self) now) }
    {
        in_place::expired_in_place(self.len, now, &self.offsets, &self.slots, &self.deadlines)
    }
}
