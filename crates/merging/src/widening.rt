// An entry that grows on a way back. It is taken as it is for a while; then an end that moved goes on to
// the next number that a word of the loop compares with, so that the comparison can end it; then to the
// end of its range; and at last nothing is known.
ghost use Rattle.std.specs.Prelude.{◌≤◌, ◌<◌};

use joins::unset;
use policy::Regions;
use rows::Entry;
use rows::entries::{ADDRESS, NUMBER, address_in, number_in, size_in};
use sets::{NumberSet, ended};
use v8::signed::BIAS;

// Growths of an entry that are taken as they are; those after them that go to a number compared with;
// those after these that go to the end of the range.
const TAKEN: u8 = 16;

const TO_BOUND: u8 = 32;

const TO_END: u8 = 36;

// How an entry was widened, and whether a number compared with bounds it.
#[derive(Clone, Copy)]
pub struct Widened {
    pub entry: Entry,
    pub bounded: bool,
}

// The numbers, in excess form, that the words of a loop compare with, and those that any word does.
#[derive(Clone, Copy)]
pub struct Bounds<'a> {
    pub near: &'a [Option<u32>],
    pub all: &'a [Option<u32>],
}

// An end that moves up, or down as the mirror shows it: it stood at `old`, stands at `end` and may go to
// `most`, in steps. All are numbers in excess form.
#[derive(Clone, Copy)]
struct Climb {
    old: u32,
    end: u32,
    most: u32,
    step: u8,
    mirrored: bool,
}

// A number in excess form, seen from the highest down.
fn mirror(n: u32) -> u32 {
    u32::MAX - n
}

// The most whole steps that a distance has.
fn whole_steps(distance: u32, step: u32) -> u32
    ensures { result ≤ distance }
{
    if step == 0 {
        return 0;
    }
    distance - distance % step
}

// The nearer of two places.
fn nearer(a: Option<u32>, b: Option<u32>) -> Option<u32> {
    match (a, b) {
        (Some(one), Some(other)) => Some(one.min(other)),
        _ => a.or(b),
    }
}

impl Climb {
    // The last place on its steps up to a limit, if there is one.
    fn place(&self, limit: u32) -> Option<u32> {
        let distance = limit.min(self.most).checked_sub(self.end)?;
        Some(self.end + whole_steps(distance, self.step as u32))
    }

    // The nearest place by a number that a word compares with: about that number, and one move past it.
    fn by_bound(&self, bound: u32) -> Option<u32> {
        let moved = self.end.saturating_sub(self.old);
        let limits = [
            bound.saturating_sub(1),
            bound,
            bound.saturating_add(1),
            bound.saturating_add(moved.saturating_sub(1)),
            bound.saturating_add(moved),
        ];
        let mut best = None;
        for limit in limits {
            best = nearer(best, self.place(limit));
        }
        best
    }

    // The nearest place by the numbers that words compare with.
    fn by_bounds(&self, bounds: &[Option<u32>]) -> Option<u32> {
        let mut best = None;
        for &n in bounds.iter().flatten() {
            let seen = if self.mirrored { mirror(n) } else { n };
            best = nearer(best, self.by_bound(seen));
        }
        best
    }

    // Where the end stays: where it is, if it did not move; otherwise by the numbers that words of the loop
    // compare with, or by those that any word does; none if nothing bounds it.
    fn rest(&self, bounds: Option<Bounds>) -> Option<u32> {
        if self.end <= self.old {
            return Some(self.end);
        }
        let numbers = bounds?;
        self.by_bounds(numbers.near)
            .or_else(|| self.by_bounds(numbers.all))
    }

    // The last place on its steps.
    fn last(&self) -> u32 {
        self.place(self.most).unwrap_or(self.end)
    }
}

// A set whose ends moved, widened within the numbers from `least` to `most`; and whether numbers compared
// with bound it.
fn widen_set(
    bounds: Option<Bounds>,
    old: NumberSet,
    new: NumberSet,
    least: u32,
    most: u32,
) -> (NumberSet, bool) {
    let up = Climb {
        old: old.hi,
        end: new.hi,
        most,
        step: new.step,
        mirrored: false,
    };
    let down = Climb {
        old: mirror(old.lo),
        end: mirror(new.lo),
        most: mirror(least),
        step: new.step,
        mirrored: true,
    };
    let high = up.rest(bounds);
    let low = down.rest(bounds);
    let lo = mirror(low.unwrap_or(down.last()));
    let hi = high.unwrap_or(up.last());
    (ended(new.step, lo, hi), high.is_some() && low.is_some())
}

// An entry that grew on a way back for the `grown`th time.
pub fn widen_entry(
    regions: &Regions,
    bounds: Bounds,
    grown: u8,
    old: Entry,
    new: Entry,
) -> Widened {
    if TO_END < grown {
        return Widened {
            entry: unset(),
            bounded: true,
        };
    }
    if TAKEN < grown && old.kind == NUMBER && new.kind == NUMBER {
        let asked = if grown <= TO_BOUND {
            Some(bounds)
        } else {
            None
        };
        let (set, bounded) = widen_set(asked, old.set, new.set, 0, u32::MAX);
        return Widened {
            entry: number_in(set),
            bounded,
        };
    }
    if TAKEN < grown && old.kind == ADDRESS && new.kind == ADDRESS {
        let most = BIAS + size_in(regions, new.region);
        let (set, bounded) = widen_set(None, old.set, new.set, BIAS, most);
        return Widened {
            entry: address_in(new.region, set),
            bounded,
        };
    }
    Widened {
        entry: new,
        bounded: true,
    }
}
