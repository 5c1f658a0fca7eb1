// The work area: bytes that are cleared, and then ticked one by one.
ghost use Rattle.std.specs.Prelude.{◌≡◌, ◌<◌, length, replicate, slice_index, slice_set};
ghost use Rattle.std.specs.Bool.{MatchBool};
ghost use Rattle.logics.specs.WorkArea.{Ticked, Inferred, Settled};

// Makes all bytes zero.
// kept beside `fill`: which bytes are cleared is said at one place, where an edit can leave one out
pub(crate) fn clear(cells: &mut [u8])
    ensures { cells.new ≡ replicate (length cells.old) 0 }
{
    cells.fill(0);
}

// Ticks a cell, and says whether it was blank.
pub(crate) fn tick(area: &mut [u8], place: usize) -> bool
    requires { place < length area.old }
    ensures here { Ticked area.new place }
    ensures was { MatchBool result ((slice_index area.old place ≡ 0) × (area.new ≡ slice_set area.old place 1)) (Ticked area.old place × (area.new ≡ area.old)) }
{
    if area[place] == 0 {
        area[place] = 1;
        true
    } else {
        false
    }
}

// Ticks a cell if two others are ticked, and says whether it was blank then.
pub(crate) fn infer(area: &mut [u8], p: usize, q: usize, place: usize) -> bool
    requires { (p < length area.old) × (q < length area.old) × (place < length area.old) }
    ensures { MatchBool result (Inferred p q place area.old area.new) (Settled p q place area.old × (area.new ≡ area.old)) }
{
    area[p] != 0 && area[q] != 0 && tick(area, place)
}
