// Finding bytes.
ghost use Rattle.lines.specs.Reading.{FirstPlace};

// The index of the first byte that equals `b`.
pub(crate) fn find(bytes: &[u8], b: u8) -> Option<usize>
    ensures { FirstPlace b bytes.now result }
{
    bytes.iter().position(|x| *x == b)
}
