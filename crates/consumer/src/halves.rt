// The two halves of an area of so many bytes. Which one is in use is told by the block where the next group would stand.
ghost use Rattle.std.specs.Prelude.{◌≡◌, ◌-◌, ◌/◌, ◌≤◌};
ghost use Rattle.consumer.specs.State.{half_blocks, half_in_use, half_end, otherHalf};

// The blocks of a half, which are also the first block of the second one.
pub fn half_blocks(area_len: usize) -> usize
    ensures { result ≡ half_blocks area_len }
{
    area_len / 512 / 2
}

// The half in use: 0 or 1.
pub fn half_in_use(area_len: usize, block: usize) -> usize
    ensures { result ≡ half_in_use area_len block }
{
    if half_blocks(area_len) < block { 1 } else { 0 }
}

// The block behind the half in use.
pub fn half_end(area_len: usize, block: usize) -> usize
    ensures { result ≡ half_end area_len block }
{
    if half_blocks(area_len) < block {
        area_len / 512
    } else {
        half_blocks(area_len)
    }
}

// The first block of the other half.
pub fn other_half(area_len: usize, block: usize) -> usize
    ensures { result ≡ otherHalf area_len block }
{
    if half_blocks(area_len) < block {
        0
    } else {
        half_blocks(area_len)
    }
}

// The blocks that are left in the half in use.
pub fn blocks_left(area_len: usize, block: usize) -> usize
    requires { block ≤ area_len / 512 }
    ensures { result ≡ half_end area_len block - block }
{
    half_end(area_len, block) - block
}
