// A journal: what a restart would find, or why it is refused and what to do; what an operator asks next; then the blocks.
use crate::facts::{Layout, facts, good_walk};
use crate::forms::unread_blocks;
use crate::listing::listed;
use crate::missed::{highest_named, lost, missed};
use crate::other::{other, other_unsound};
use crate::refusals::{journal_advice, refused};
use consumer::{Configuration, Settings};
use delivery::DeliveryConfig;
use hours::Hours;
use journal::Stop;
use lease::LeaseConfig;
use text::output::Output;
use types::limits::WORKERS;
use types::refusals::Refusal;

// A configuration that every start accepts. What a restart finds doesn't depend on it.
fn configuration() -> Configuration {
    Configuration {
        settings: Settings {
            delivery: DeliveryConfig::default(),
            rights: [0; WORKERS],
            hours: Hours {
                given: false,
                shift: 0,
                days: [0; 7],
            },
        },
        lease: LeaseConfig::default(),
    }
}

// The last group of a walk, whatever its number, if there is one.
fn last_group(walked: Result<Stop, Refusal>) -> Option<u64> {
    let stop = walked.ok()?;
    stop.last?;
    Some(stop.number.saturating_sub(1))
}

fn finds(out: &mut Output, walked: Result<Stop, Refusal>) {
    match last_group(walked) {
        Some(group) => out.say(b"a restart finds the checkpoint of group #\n", &[group]),
        None => { out.put(b"a restart finds no checkpoint, and begins as a fresh start does\n") }
    }
}

fn no_restart(out: &mut Output, refusal: Refusal) {
    out.put(b"a restart is refused: ");
    refused(out, refusal);
    journal_advice(out, refusal);
}

// Whether a walk below block `hi` ended at the header of group `number`, sound in all but its fit.
fn is_unfit(area: &[u8], hi: usize, number: u64, block: usize) -> bool {
    if hi <= block || area.len() / 512 <= block {
        return false;
    }
    let from = 512 * block;
    let to = from + 512;
    journal::is_sound_but_fit(&area[from..to], number)
}

// The greatest group that a block names; 0 where headers stand behind a walk below block `hi` that ended at a block: then a restart is
// refused, and what is out of reach is said.
fn highest_unsaid(area: &[u8], hi: usize, block: usize) -> u64 {
    if journal::header_behind(area, hi, block) {
        return 0;
    }
    highest_named(area)
}

// What a walk that ended at a block, where a group would come next, should not have ended at, and what the other half has.
fn ended(out: &mut Output, area: &[u8], stop: Stop) {
    let hi = starts::limit(area);
    let number = stop.number;
    let block = stop.block;
    if is_unfit(area, hi, number, block) {
        out.say(
            b"why: group #, at block #, passes the end of its half, as groups may in a journal from before there were halves: \
            see the section on such journals in rust/README.md\n",
            &[number, block as u64],
        );
        return;
    }
    missed(out, area, hi, number, block);
    other(out, area, number, highest_unsaid(area, hi, block));
}

// Whose body at a block is unsound, what is out of reach with it, and what the other half has.
fn unsound(out: &mut Output, area: &[u8], body: usize) {
    let Ok(stop) = good_walk(area, Err(Refusal::Damaged { block: body })) else {
        return;
    };
    out.say(
        b"why: the header of group #, at block #, is sound, and its body at block # is not\n",
        &[stop.number, stop.block as u64, body as u64],
    );
    lost(out, area, stop.number);
    other_unsound(out, area);
}

// Why the groups end where they should not, and warnings.
fn reasons(out: &mut Output, area: &[u8], walked: Result<Stop, Refusal>) {
    match walked {
        Ok(stop) => ended(out, area, stop),
        Err(Refusal::Damaged { block }) => unsound(out, area, block),
        Err(_) => {}
    }
}

// What a restart would find, or its refusal, and what else is to be known before it.
fn verdict(out: &mut Output, area: &[u8], walked: Result<Stop, Refusal>) {
    let started = starts::restart(configuration(), area);
    match started.answer {
        Ok(()) => {
            finds(out, walked);
            reasons(out, area, walked);
            shown::state(out, started.consumer);
        }
        Err(refusal) => {
            no_restart(out, refusal);
            reasons(out, area, walked);
        }
    }
}

// The walk over the half in use, where a consumer can be started on so many bytes.
fn walk(area: &[u8]) -> Result<Stop, Refusal> {
    if starts::start(configuration(), area.len()).answer.is_err() {
        return Err(Refusal::BadArea);
    }
    let from = starts::origin(area);
    journal::walk(area, starts::limit(area), from.number, from.block)
}

// A journal of any length, which lies in its file so, and of which these blocks can't be read.
pub fn journal(out: &mut Output, area: &[u8], layout: Layout, unread: &[u8; 128]) {
    let walked = walk(area);
    verdict(out, area, walked);
    unread_blocks(out, unread);
    facts(out, area, walked, layout);
    listed(out, area);
}

// The first blocks of a file that is longer than any journal: a restart on it is 4.
pub fn oversized(out: &mut Output, area: &[u8]) {
    no_restart(out, Refusal::BadArea);
    out.put(
        b"\nfile: more than 65536 bytes, which the longest journal has; its first blocks follow, in halves as if they were all\n\n",
    );
    listed(out, area);
}

// Whether there is something to be known before a restart that isn't refused: something would be said of it, or a part can't be read.
fn is_odd(out: &Output, area: &[u8], walked: Result<Stop, Refusal>, unread: &[u8; 128]) -> bool {
    let mut gathered = [0u8; 4096];
    let mut aside = Output::new(out.stdout, &mut gathered);
    reasons(&mut aside, area, walked);
    0 < aside.at || !raw::all_zero(unread)
}

// What a restart finds of one of several journals, with the ceiling.
fn finds_briefly(out: &mut Output, walked: Result<Stop, Refusal>, ceiling: u64) {
    match last_group(walked) {
        Some(group) => out.say(
            b"a restart finds the checkpoint of group #, ceiling #\n",
            &[group, ceiling],
        ),
        None => { out.put(b"a restart finds no checkpoint, and begins as a fresh start does\n") }
    }
}

// A journal of several in one line: its number, and what a restart finds, with the ceiling, or its refusal. A line more where it wants
// a look.
pub fn summary(out: &mut Output, area: &[u8], number: u64, unread: &[u8; 128]) {
    let walked = walk(area);
    let started = starts::restart(configuration(), area);
    out.say(b"journal #: ", &[number]);
    if let Err(refusal) = started.answer {
        out.put(b"a restart is refused: ");
        refused(out, refusal);
        return;
    }
    finds_briefly(out, walked, started.consumer.ceiling.0);
    if is_odd(out, area, walked, unread) {
        out.say(
            b"beware: journal # wants a look before a restart: inspect it by its number\n",
            &[number],
        );
    }
}
