//! Where the constants of a column fall: the places whose constant is less than the one before it, in order.

ghost use Rattle.std.specs.Prelude.{◌≡◌, ◌+◌, ◌<◌, ◌≤◌, ◌^◌, ◌↔◌, ℕ, [], IsTrue, false, length, vec_capacity, vec_len};
ghost use Rattle.filter_group.specs.Answers.{AreAbove, AreAtMost, AreFalls, AreRisingFrom, IsFall, IsListed, IsStretch};
ghost use Rattle.filter_group.specs.Falling.{AreBut, AreFallsWith, AreFallsWithout, AreLowered, AreRaised, AreWithFall};

use tiered::Tiered;

/// Whether the constant at a place is less than the one before it.
pub(crate) fn is_fall(constants: &Tiered<u32>, place: usize) -> bool
    ensures { IsTrue result ↔ IsFall constants.now.items place (length constants.now.items) }
{
    0 < place && place < constants.len() && *constants.at(place) < *constants.at(place - 1)
}

/// At how many places from one on, of two, the constants fall.
pub(crate) fn falls_near(constants: &Tiered<u32>, place: usize) -> usize
    requires { place ≤ length constants.now.items }
    ensures { result ≤ 2 }
{
    let _count = constants.len();
    usize::from(is_fall(constants, place)) + usize::from(is_fall(constants, place + 1))
}

/// How many places of a list in order are at most one.
fn count_to(places: &[usize], most: usize) -> usize
    requires order { IsStretch places.now 0 (length places.now) }
    ensures within { result ≤ length places.now }
    ensures low { AreAtMost places.now most 0 result }
    ensures high { AreAbove places.now most result (length places.now) }
{
    let mut low = 0;
    let mut high = places.len();
    while low < high {
        let middle = low + (high - low) / 2;
        if places[middle] <= most {
            low = middle + 1;
        } else {
            high = middle;
        }
    }
    low
}

/// The next fall past a place, or the end.
// Not in line: most columns have no fall.
#[inline(never)]
pub(crate) fn next_fall(falls: &[usize], first: usize, end: usize) -> usize
    requires order { IsStretch falls.now 0 (length falls.now) }
    requires first { first < end }
    ensures later { first < result }
    ensures within { result ≤ end }
    ensures none { (place : ℕ) → IsListed falls.now place → first < place → place < result → ⊥ }
{
    let count = count_to(falls, first);
    if count < falls.len() {
        falls[count].min(end)
    } else {
        end
    }
}

/// Takes a place out of a list in order, if it is there.
fn take(places: &mut Vec<usize>, place: usize)
    requires order { IsStretch places.old.items 0 (length places.old.items) }
    ensures but { AreBut place places.old.items places.new.items }
    ensures room { vec_capacity places.new ≡ vec_capacity places.old }
{
    let count = count_to(places, place);
    if 0 < count && places[count - 1] == place {
        places.remove(count - 1);
    }
}

/// Moves the places past one up by one.
fn raise(places: &mut [usize], past: usize)
    requires { (place : ℕ) → IsListed places.old place → place < 2 ^ 63 }
    ensures { AreRaised past places.old places.new }
{
    for i in 0..places.len() {
        if past < places[i] {
            places[i] += 1;
        }
    }
}

/// Moves the places past one down by one.
fn lower(places: &mut [usize], past: usize)
    ensures { AreLowered past places.old places.new }
{
    for i in 0..places.len() {
        if past < places[i] {
            places[i] -= 1;
        }
    }
}

/// Lists a place if the constants fall there.
fn list_fall(constants: &Tiered<u32>, falls: &mut Vec<usize>, place: usize)
    requires order { IsStretch falls.old.items 0 (length falls.old.items) }
    requires room { IsFall constants.now.items place (length constants.now.items) → vec_len falls.old < vec_capacity falls.old }
    ensures falls { AreWithFall constants.now.items place falls.old.items falls.new.items }
    ensures count { vec_len falls.new ≤ vec_len falls.old + 1 }
    ensures room { vec_capacity falls.old ≤ vec_capacity falls.new }
{
    if is_fall(constants, place) {
        let count = count_to(falls, place);
        // There is room, so this can't fail.
        let _ = falls.insert(count, place);
    }
}

/// The falls once a constant was put in at a place. There is room for two more, if the constants fall there or past it.
// Not in line, as `next_fall`.
#[inline(never)]
pub(crate) fn put_in_falls(constants: &Tiered<u32>, falls: &mut Vec<usize>, member: usize)
    requires falls { AreFallsWithout constants.now.items member falls.old.items }
    requires room { (place : ℕ) → member ≤ place → place ≤ member + 1 → IsFall constants.now.items place (length constants.now.items)
        → vec_len falls.old + 2 ≤ vec_capacity falls.old }
    ensures { AreFalls constants.now.items falls.new.items }
{
    let _count = constants.len();
    take(falls, member);
    raise(falls, member);
    list_fall(constants, falls, member);
    list_fall(constants, falls, member + 1);
}

/// The falls once the constant at a place was taken out. Takes no memory.
// Not in line, as `next_fall`.
#[inline(never)]
pub(crate) fn take_out_of_falls(constants: &Tiered<u32>, falls: &mut Vec<usize>, member: usize)
    requires { AreFallsWith constants.now.items member falls.old.items }
    ensures { AreFalls constants.now.items falls.new.items }
{
    let _count = constants.len();
    take(falls, member + 1);
    take(falls, member);
    lower(falls, member);
    list_fall(constants, falls, member);
}

/// Lists the falls of constants with counts, if they are so many at most and there is room. Takes no memory.
pub(crate) fn list_falls(
    constants: &Tiered<u32>,
    rising: &Tiered<u32>,
    falls: &mut Vec<usize>,
    most: usize,
) -> bool
    requires none { falls.old.items ≡ [] }
    requires rising { AreRisingFrom 0 constants.now.items rising.now.items }
    ensures falls { IsTrue result → AreFalls constants.now.items falls.new.items }
    ensures some { result ≡ false → 0 < length constants.now.items }
{
    let count = constants.len();
    let mut place = 0;
    while place < count {
        place += *rising.at(place) as usize;
        if is_fall(constants, place) {
            if falls.len() == most || falls.len() == falls.capacity() {
                return false;
            }
            let _ = falls.push(place);
        }
    }
    true
}
