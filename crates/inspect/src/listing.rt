// The blocks of a journal in lines. Blocks one behind the other of which the same is said share a line.
ghost use Rattle.std.specs.Prelude.{◌≡◌, ◌+◌, ◌*◌, ◌≤◌, ◌<◌, length};
ghost use Rattle.text.specs.Output.{Says};
ghost use Rattle.inspect.specs.Places.{place_at};
ghost use Rattle.inspect.specs.Runs.{blocks_said, ReachesTo};

use crate::blocks::Row;
use crate::places::Place;
use crate::{blocks, places};
use consumer::halves::half_blocks;
use text::output::Output;

// Where a run of blocks ends of which the same is said: the block behind it, counted in its half, and what is expected there.
#[derive(Clone, Copy)]
pub struct Run {
    pub end: usize,
    pub place: Place,
}

// Which blocks a line is of: those from `from` up to the one before `to`.
fn blocks_said(out: &mut Output, from: usize, to: usize)
    requires { from < to }
    ensures { Says (blocks_said from to) out.old out.new }
{
    let last = to - 1;
    if from == last {
        out.say(b"block #: ", &[from as u64]);
    } else {
        out.say(b"blocks # to #: ", &[from as u64, last as u64]);
    }
}

// A line for the blocks from `from` up to the one before `to`.
fn line(out: &mut Output, from: usize, to: usize, row: Row)
    requires { from < to }
{
    blocks_said(out, from, to);
    blocks::put_row(out, row);
}

// What is expected behind block `m` of the half that begins at block `half`, where `place` is what is expected at that block.
fn behind_block(area: &[u8], half: usize, m: usize, place: Place) -> Place
    requires { (512 * (half + m) + 512 ≤ length area.now) × (place ≡ place_at area.now half m) }
    ensures { result ≡ place_at area.now half (m + 1) }
{
    let i = half + m;
    let from = 512 * i;
    let to = from + 512;
    let end = half + half_blocks(area.len());
    places::after(place, &area[from..to], end, i)
}

// How far the blocks from block `m` of a half on go of which `said` is said, as it is of that one, among `count` blocks.
fn run_from(area: &[u8], half: usize, count: usize, m: usize, place: Place, said: Row) -> Run
    requires { (m < count) × (512 * (half + count) ≤ length area.now) × (place ≡ place_at area.now half m) }
    ensures { ReachesTo area.now half m count result }
{
    let mut after = behind_block(area, half, m, place);
    for end in m + 1..count {
        if blocks::row_at(area, half, end, after) != said {
            return Run { end, place: after };
        }
        after = behind_block(area, half, end, after);
    }
    Run {
        end: count,
        place: after,
    }
}

// Lines for `count` blocks of an area from block `half` on, where a half begins.
fn lines(out: &mut Output, area: &[u8], half: usize, count: usize)
    requires { 512 * (half + count) ≤ length area.now }
{
    if count == 0 {
        return;
    }
    let mut place = places::first(area, half);
    let mut m: usize = 0;
    while m < count {
        let said = blocks::row_at(area, half, m, place);
        let reached = run_from(area, half, count, m, place, said);
        line(out, half + m, half + reached.end, said);
        place = reached.place;
        m = reached.end;
    }
}

// Which half begins at block `half`, and whether it is in use.
fn half_name(area: &[u8], half: usize) -> &'static [u8] {
    let in_use = starts::origin(area).block == half;
    match (half, in_use) {
        (0, true) => b"the first half, in use: blocks # to #",
        (0, false) => b"the first half, not in use: blocks # to #",
        (_, true) => b"the second half, in use: blocks # to #",
        (_, false) => b"the second half, not in use: blocks # to #",
    }
}

// The end of a heading: behind the second half, where the number of blocks is odd, stands one that is in neither.
fn heading_end(out: &mut Output, area: &[u8], half: usize) {
    let blocks = area.len() / 512;
    if half == 0 || blocks % 2 == 0 {
        out.put(b"\n");
    } else {
        out.say(b"; block # is in neither half\n", &[(blocks - 1) as u64]);
    }
}

// Which half begins at block `half`, whether it is in use, and its blocks.
fn half_heading(out: &mut Output, area: &[u8], half: usize) {
    let blocks = half_blocks(area.len());
    if blocks == 0 {
        return;
    }
    let last = (half as u64).saturating_add((blocks - 1) as u64);
    out.say(half_name(area, half), &[half as u64, last]);
    heading_end(out, area, half);
}

// The whole blocks of an area, half by half. A block more than the halves have stands behind the second.
pub fn listed(out: &mut Output, area: &[u8]) {
    let middle = half_blocks(area.len());
    half_heading(out, area, 0);
    lines(out, area, 0, middle);
    half_heading(out, area, middle);
    lines(out, area, middle, area.len() / 512 - middle);
}
