// Columns of sorted tables: arrays of numbers of which the first `len` places are in use.
#![tactic(auto)]

ghost use Rattle.std.specs.Prelude.{◌≡◌, ◌+◌, ◌≤◌, length, take};
ghost use Rattle.std.proofs.Math.Seq.{paste};
ghost use Rattle.tables.specs.Columns.{put_in, takenOut};
ghost use Rattle.tables.specs.Search.{Boundary, Placed};
ghost use Rattle.tables.specs.Slots.{Permutes, set_aside};

use std::array;
use types::limits::LEASES;

pub mod counts;

// Where a key stands, or where it would stand.
#[derive(Clone, Copy, Debug, PartialEq, Eq)]
pub enum Place {
    Found(usize),
    Missing(usize),
}

// A place with no key below x at it, and one below x before it: in a sorted column, how many keys are below x. It halves the
// range that is left.
pub fn position(keys: &[u64], len: usize, x: u64) -> usize
    ensures { Boundary x (take len keys.now) result }
{
    let mut low: usize = 0;
    let mut high = len.min(keys.len());
    while low < high {
        let mid = low + (high - low) / 2;
        if keys[mid] < x {
            low = mid + 1;
        } else {
            high = mid;
        }
    }
    low
}

// A place with no key up to x at it, and one up to x before it: in a sorted column, behind all keys that are not above x. The last
// key is looked at first: where keys come in their order there is no search.
pub fn position_after(keys: &[u64], len: usize, x: u64) -> usize
    ensures { Boundary (x + 1) (take len keys.now) result }
{
    let end = len.min(keys.len());
    if 0 < end && x < keys[end - 1] {
        return position(keys, len, x + 1);
    }
    end
}

// Whether x stands at the place of `position`.
pub fn find(keys: &[u64], len: usize, x: u64) -> Place
    ensures { Placed x (take len keys.now) result }
{
    let at = position(keys, len, x);
    if at < len.min(keys.len()) && keys[at] == x {
        return Place::Found(at);
    }
    Place::Missing(at)
}

// Puts x in at a place, what stood from there on one place further. Where there is no such place, or no room, the column
// stays as it is.
pub fn insert<T: Copy>(column: &mut [T], len: usize, at: usize, x: T)
    ensures { column.new ≡ put_in len at x column.old }
{
    if at <= len && len < column.len() {
        if at < len {
            column.copy_within(at..len, at + 1);
        }
        column[at] = x;
    }
}

// Takes the places from `from` up to `to` out; the places that fall free keep what they held. Where there are none, or they are
// no places in use, the column stays as it is, and isn't gone through.
pub fn remove<T: Copy>(column: &mut [T], len: usize, from: usize, to: usize)
    ensures { column.new ≡ takenOut len from to column.old }
{
    if from < to && to <= len && len <= column.len() {
        column.copy_within(to..len, from);
    }
}

// The first `count` slots of those in use moved behind the others, to the free ones: both parts are turned round, and then the whole.
// Where none or all go, they are where they belong.
pub fn set_aside<T: Copy>(slots: &mut [T], len: usize, count: usize)
    requires { (count ≤ len) × (len ≤ length slots.old) }
    ensures { slots.new ≡ set_aside len 0 count slots.old }
{
    if count == 0 || count == len {
        return;
    }
    slots[..count].reverse();
    slots[count..len].reverse();
    slots[..len].reverse();
}

// Stores the first `count` numbers of a column in another, from a place on.
pub fn copy<T: Copy>(column: &mut [T], at: usize, source: &[T], count: usize)
    requires { (at + count ≤ length column.old) × (count ≤ length source.now) }
    ensures { column.new ≡ paste column.old at source.now count }
{
    column[at..at + count].copy_from_slice(&source[..count]);
}

// All 64 slots, in their order.
pub fn all_slots() -> [u32; LEASES]
    ensures { Permutes 64 result }
{
    array::from_fn(|slot| slot as u32)
}
