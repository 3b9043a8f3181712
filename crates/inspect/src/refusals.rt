// Refusals for people: the number and the name of each (SPEC.md, "Refusals"), with its values, and what to do.
use text::output::Output;
use types::refusals::Refusal;

// The name of a refusal that has no values.
fn name_of(refusal: Refusal) -> &'static [u8] {
    match refusal {
        Refusal::UnlimitedDeliverNotAllowed => b"UnlimitedDeliverNotAllowed\n",
        Refusal::TooManySteps => b"TooManySteps\n",
        Refusal::ZeroThreshold => b"ZeroThreshold\n",
        Refusal::BadArea => b"BadArea\n",
        Refusal::CursorTruncated => b"Cursor Truncated\n",
        Refusal::CursorBadCrc => b"Cursor BadCrc\n",
        Refusal::TooManyRuns => b"TooManyRuns\n",
        Refusal::AttemptTruncated => b"Attempt Truncated\n",
        Refusal::AttemptBadCrc => b"Attempt BadCrc\n",
        Refusal::TooManyPairs => b"TooManyPairs\n",
        Refusal::OutTooShort => b"OutTooShort\n",
        Refusal::LastOffset => b"LastOffset\n",
        Refusal::Settled => b"Settled\n",
        Refusal::InFlight => b"InFlight\n",
        Refusal::Fenced => b"Fenced\n",
        Refusal::Exhausted => b"Exhausted\n",
        Refusal::CheckpointDue => b"CheckpointDue\n",
        Refusal::Full => b"Full\n",
        Refusal::CapReached => b"CapReached\n",
        Refusal::Shed => b"Shed\n",
        Refusal::JournalFull => b"JournalFull\n",
        // No journal and no snapshot is refused so.
        _ => b"",
    }
}

// The line's end behind the number of a refusal of ranges or pairs that are out of order; of any other, its name.
fn named(out: &mut Output, refusal: Refusal, values: &[u64]) {
    match refusal {
        Refusal::EmptyRange { .. } => out.say(b"EmptyRange: start #, end #\n", values),
        Refusal::NotSortedDisjointAndAboveCommitted { .. } => out.say(
            b"NotSortedDisjointAndAboveCommitted: start #, previous end #\n",
            values,
        ),
        Refusal::CountMismatch { .. } => out.say(b"CountMismatch: declared #, actual #\n", values),
        Refusal::NotSorted { .. } => out.say(b"NotSorted: offset #, previous offset #\n", values),
        _ => out.put(name_of(refusal)),
    }
}

// The number of a refusal, its name and its values, as `answers` has them, to the line's end.
pub fn refused(out: &mut Output, refusal: Refusal) {
    let code = answers::of_refusal(refusal);
    let values = [code.2, code.3];
    out.say(b"# ", &[code.0]);
    match refusal {
        Refusal::Damaged { .. } => out.say(b"Damaged: block #\n", &values),
        Refusal::CursorBadLength { .. } => out.say(b"Cursor BadLength: length #\n", &values),
        Refusal::CursorUnsupportedVersion { .. } => {
            out.say(b"Cursor UnsupportedVersion: version #\n", &values)
        }
        Refusal::AttemptUnsupportedVersion { .. } => {
            out.say(b"Attempt UnsupportedVersion: version #\n", &values)
        }
        Refusal::AttemptBadLength { .. } => out.say(b"Attempt BadLength: length #\n", &values),
        _ => named(out, refusal, &values),
    }
}

// What to do about a refusal of a journal.
pub fn journal_advice(out: &mut Output, refusal: Refusal) {
    match refusal {
        Refusal::BadArea => out.put(
            b"to do: see that the file is whole: a journal has an even number of blocks of 512 bytes, from 18 to 128. One from before there \
            were halves may have another length: see the section on such journals in rust/README.md\n",
        ),
        Refusal::Damaged { .. } => out.put(
            b"to do: keep a copy of this file, and stop all workers before anything else; then see docs/OPERATING.md, After a fault of the disk\n",
        ),
        Refusal::CursorUnsupportedVersion { .. } | Refusal::AttemptUnsupportedVersion { .. } =>
            out.put(
                b"to do: keep a copy of this file, and stop all workers before anything else; then see who wrote it: this reader doesn't know that \
            version of a snapshot\n",
            ),
        _ => out.put(
            b"to do: keep a copy of this file, and stop all workers before anything else; then see who wrote it: no checkpoint leaves such \
            snapshots\n",
        ),
    }
}

// What to do about a refusal of a snapshot.
pub fn snapshot_advice(out: &mut Output, refusal: Refusal) {
    match refusal {
        Refusal::CursorUnsupportedVersion { .. } | Refusal::AttemptUnsupportedVersion { .. } => {
            out.put(b"to do: see who wrote it: this reader doesn't know that version\n")
        }
        _ => out.put(
            b"to do: see who wrote it, and have a snapshot sent again: no checkpoint and no encoder leaves such bytes\n",
        ),
    }
}
