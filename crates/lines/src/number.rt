// Decimal numbers.
ghost use Rattle.std.specs.Prelude.{◌≡◌, ◌^◌, ◌<◌, T, decimal, MatchOption};
ghost use Rattle.base.specs.Words.{Iff};
ghost use Rattle.lines.specs.Reading.{Padded, NoNumber};

use std::str;

// Does the field begin with a plus sign, or with a zero before another byte?
fn is_padded(field: &[u8]) -> bool
    ensures { Iff (T result) (Padded field.now) }
{
    matches!(field, [b'+', ..] | [b'0', _, ..])
}

// The number that the field writes: decimal, of 32 bits, without leading zeros.
pub(crate) fn read_number(field: &[u8]) -> Option<u32>
    ensures { MatchOption result (NoNumber field.now) (λ n. (field.now ≡ decimal n) × (n < 2 ^ 32)) }
{
    if is_padded(field) {
        return None;
    }
    str::from_utf8(field).ok()?.parse().ok()
}
