// Sets of the numbers 0 to 63, each stored as one number.
#![tactic(auto)]

ghost use Rattle.std.specs.Prelude.{◌≡◌, ◌-◌, ◌^◌, ◌<◌, ◌≤◌, T, length, bit_or};
ghost use Rattle.std.specs.Fn.{FnReturnsAt};
ghost use Rattle.base.specs.Bits.{Has, Answered};
ghost use Rattle.base.specs.Words.{Iff};

// Is `place` in the set?
pub fn contains(set: u64, place: u32) -> bool
    ensures { Iff (T result) (Has set place) }
{
    place < 64 && (set >> place) & 1 == 1
}

// The set with one more place; there are no places from 64 on.
pub fn with_place(set: u64, place: u32) -> u64
    ensures within { place < 64 → result ≡ bit_or set (2 ^ place) }
    ensures beyond { 64 ≤ place → result ≡ set }
{
    if place < 64 { set | (1 << place) } else { set }
}

// The set without a place of its own.
pub fn without_place(set: u64, place: u32) -> u64
    ensures there { Has set place → result ≡ set - 2 ^ place }
    ensures absent { (Has set place → ⊥) → result ≡ set }
{
    if contains(set, place) {
        set - (1 << place)
    } else {
        set
    }
}

// The set of the places at which the test holds, of up to 64 things.
pub fn places_where<T, F: Fn(&T) -> bool>(things: &[T], test: F) -> u64
    requires few { length things.now ≤ 64 }
    requires callable { F.IsAlwaysCallable test }
    ensures within { result < 2 ^ length things.now }
    ensures answered { Answered (FnReturnsAt F.Fn test) things.now result }
{
    let mut places = 0;
    for (place, thing) in things.iter().enumerate() {
        if test(thing) {
            places |= 1 << place;
        }
    }
    places
}
