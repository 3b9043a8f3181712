// What is said of the form of a file: what of its sector 0 is wrong, with what to do; that it has no such journal; and which blocks the
// disk can't read.
use sectors::{FormError, State};
use text::output::Output;

// What to do about sector 0 of a file that was written for several journals.
fn advise(out: &mut Output) {
    out.put(
        b"to do: keep a copy of this file, and stop all workers before anything else; then see docs/OPERATING.md, When sector 0 is wrong\n",
    );
}

// A number in sector 0 that it can't have.
fn wrong_number(out: &mut Output, template: &'static [u8], bytes: u64, number: u64) {
    out.say(template, &[bytes, number]);
    advise(out);
}

// A file of so many bytes that doesn't begin as one in sectors does.
fn no_magic(out: &mut Output, bytes: u64) {
    out.say(
        b"no journal: # bytes, and it doesn't begin with NINOTSKV\n\
        to do: see that this is the file of a journal: one with blocks side by side has at most 65536 bytes, and any other begins so\n",
        &[bytes],
    );
}

// A file of so many bytes in another version of the layout.
fn wrong_version(out: &mut Output, bytes: u64, version: u32) {
    out.say(
        b"no journal: # bytes, and sector 0 says version # of the layout, not 1\n\
        to do: see who wrote it: this reader doesn't know that version of the layout\n",
        &[bytes, u64::from(version)],
    );
}

// A file of another length than it should have.
fn wrong_length(out: &mut Output, bytes: u64, whole: u64) {
    out.say(
        b"no journal: # bytes, where sector 0 says #\n\
        to do: see that the file is whole: it was cut, or something was put behind it\n",
        &[bytes, whole],
    );
}

// A file of so many bytes, too many for blocks side by side, that isn't one in sectors.
pub fn wrong(out: &mut Output, form: FormError, bytes: u64) {
    match form {
        FormError::Magic => no_magic(out, bytes),
        FormError::Version(version) => wrong_version(out, bytes, version),
        FormError::SectorBytes(size) => wrong_number(
            out,
            b"no journal: # bytes, and sector 0 says sectors of # bytes, not 4096\n",
            bytes,
            u64::from(size),
        ),
        FormError::Blocks(blocks) => wrong_number(
            out,
            b"no journal: # bytes, and sector 0 says # blocks for a journal, not an even number from 18 to 128\n",
            bytes,
            u64::from(blocks),
        ),
        FormError::Journals(journals) => wrong_number(
            out,
            b"no journal: # bytes, and sector 0 says # journals, not 1 to 65535\n",
            bytes,
            u64::from(journals),
        ),
        FormError::Check => wrong_number(
            out,
            b"no journal: # bytes, and sector 0 has a wrong check\n",
            bytes,
            0,
        ),
        FormError::Length { bytes: whole } => wrong_length(out, bytes, whole),
    }
}

// Sector 0 that the disk can't read.
pub fn unreadable(out: &mut Output) {
    out.put(b"no journal: the disk can't read sector 0\n");
    advise(out);
}

// A file of so many journals that has none of this number.
pub fn no_such(out: &mut Output, number: u64, journals: u64) {
    if 1 < journals {
        out.say(
            b"no journal #: the file has journals 0 to #\n",
            &[number, journals - 1],
        );
    } else {
        out.say(b"no journal #: the file has one, journal 0\n", &[number]);
    }
}

// A journal of a file for several that isn't in use: no server restarts from it, whatever its blocks are.
pub fn marked(out: &mut Output, state: State, number: u64) {
    match state {
        State::Free => out.say(
            b"journal #: free: no server restarts from it; a start or an import can take it\n",
            &[number],
        ),
        State::Unfinished => out.say(
            b"journal #: unfinished: an import into it, or freeing it, was cut, and no server restarts from it: import into it again, or free \
            it\n",
            &[number],
        ),
        State::InUse => {}
    }
}

// The blocks that the disk can't read, those for which a list has 1.
pub fn unread_blocks(out: &mut Output, unread: &[u8; 128]) {
    if raw::all_zero(unread) {
        return;
    }
    out.put(b"beware: the disk can't read these blocks, which count as unsound:");
    for block in 0..128 {
        if unread[block] != 0 {
            out.say(b" #", &[block as u64]);
        }
    }
    out.put(
        b"\nto do: where the power failed, the next writes mend what was being written; else copy the file part by part, and repair or replace \
        the disk: docs/OPERATING.md, After a fault of the disk\n",
    );
}
