ghost use Rattle.std.specs.Prelude.{◌≡◌, [], slice_index, slice_index_or};

// What stands in row a of a square table, at place b, and 0 beyond the table.
pub fn entry<const N: usize>(table: &[[u8; N]; N], a: u32, b: u32) -> u32
    ensures { result ≡ slice_index (slice_index_or table.now a []) b }
{
    // a `match`, since a proof cannot read a closure that captures a value in a function of a const parameter
    match table.get(a as usize) {
        Some(row) => row.get(b as usize).copied().map_or(0, u32::from),
        None => 0,
    }
}
