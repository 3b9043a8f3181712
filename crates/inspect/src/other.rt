// What says that a restart goes back over checkpoints without a word. The half that isn't in use, which a restart doesn't judge: where
// it has later groups than the half in use, the first block of it may be worn. And any block that names a later group than the next
// one: a header before it is worn.
ghost use Rattle.std.specs.Prelude.{◌≡◌};
ghost use Rattle.inspect.specs.Places.{otherHalf};

use crate::missed::{Headers, headers_behind};
use crate::places;
use crate::places::Place;
use consumer::halves::half_blocks;
use text::output::Output;

// The block that it begins at.
fn other_half(area: &[u8]) -> usize
    ensures { result ≡ otherHalf area.now }
{
    if starts::origin(area).block == 0 {
        return half_blocks(area.len());
    }
    0
}

// The headers in it.
fn other_headers(area: &[u8]) -> Headers {
    let other = other_half(area);
    if other == 0 {
        return headers_behind(area, 0, half_blocks(area.len()));
    }
    headers_behind(area, other, area.len() / 512)
}

// Whether it is opened under the number that the half in use begins with.
fn opened_alike(area: &[u8]) -> bool {
    let other = other_half(area);
    if area.len() / 512 <= other {
        return false;
    }
    match places::first(area, other) {
        Place::Header { number } => number == starts::origin(area).number,
        _ => false,
    }
}

// That both halves begin with the same group.
fn begin_alike(out: &mut Output, area: &[u8]) {
    out.say(
        b"beware: both halves begin with group #, which no checkpoint leaves; the first is in use\n",
        &[starts::origin(area).number],
    );
}

// That a block names group `highest`, if that is later than group `next`, which would come next.
fn above(out: &mut Output, next: u64, highest: u64) {
    if next < highest {
        out.say(
            b"beware: a block names group #, and group # would come next, which no checkpoint and no power failure leaves. A header is worn: a \
            restart goes back over checkpoints, and may give generations a second time; checkpoints a restart can't reach: at least #. Keep a copy of this file, \
            and stop all workers before a restart\n",
            &[highest, next, highest - next],
        );
    }
}

// Of a walk that ended where group `next` would come next, on an area whose blocks name groups up to `highest`.
pub fn other(out: &mut Output, area: &[u8], next: u64, highest: u64) {
    let headers = other_headers(area);
    if next <= headers.number {
        out.say(
            b"beware: the half that isn't in use names group #, and in the half in use group # would come next. The first block of the other \
            may be worn: then a restart goes back over checkpoints, and may give generations a second time. Keep a copy of this file\n",
            &[headers.number, next],
        );
    } else if opened_alike(area) {
        begin_alike(out, area);
    } else {
        above(out, next, highest);
    }
}

// Of a walk that met an unsound body: all headers of the half in use count, those behind that body too.
pub fn other_unsound(out: &mut Output, area: &[u8]) {
    let used = headers_behind(area, starts::origin(area).block, starts::limit(area));
    let next = used.number.saturating_add(1);
    let headers = other_headers(area);
    if next <= headers.number {
        out.say(
            b"beware: the half that isn't in use names group #, and the half in use neither group # nor a later one. The first block of the \
            other may be worn: then the half in use is the older one. Keep a copy of this file\n",
            &[headers.number, next],
        );
    } else if opened_alike(area) {
        begin_alike(out, area);
    }
}
