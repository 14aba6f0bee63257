// Where a region's part of the lent memory begins (specs/Place.antt).
ghost use Rattle.std.specs.Prelude.{◌≡◌, ◌≤◌};
ghost use Rattle.memory.specs.Place.{part_start};

// A region's size as a count of bytes in memory. `usize::from` does not say how large it is, which
// those who add up sizes need.
pub fn extent(size: u16) -> usize
    ensures { (result ≡ size) × (result ≤ 65535) }
{
    size as usize
}

// The start of a region's part, which is the length of the parts of all lower regions.
pub fn part_start(sizes: &[u16; 8], region: u8) -> usize
    requires { region ≤ 8 }
    ensures { (result ≡ part_start sizes.now region) × (result ≤ 524280) }
{
    let mut sum: usize = 0;
    // A `sum` of a part of the sizes leaves its bound and the definition to prove by hand.
    for i in 0..region {
        sum += extent(sizes[i as usize]);
    }
    sum
}
