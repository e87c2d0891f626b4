//! Where the parts of a disk stand.
ghost use Rattle.std.specs.Prelude.{◌≡◌, ◌<◌, ◌≤◌, ◌+◌, ◌*◌, ◌%◌, ◌^◌};
ghost use Rattle.disk_layout.specs.Sizes.{contents_from, area_size, home_start};

/// Where an area begins on a disk of so many blocks, and where in it the contents do.
#[derive(Drop)]
pub struct Place {
    pub blocks: u32,
    pub start: u64,
    pub from: u64,
    ghost from_is: { from ≡ contents_from blocks },
    ghost in_range: { start < 2 ^ 50 },
    ghost in_range_from: { from < 2 ^ 50 },
    ghost in_range_size: { area_size blocks < 2 ^ 50 },
}

/// The area of a generation on a disk of so many blocks.
#[tactic(auto, unfolding(crate::specs::Sizes::area_size, crate::specs::Sizes::contents_from))]
pub fn place_of(blocks: u32, generation: u64) -> Place
    ensures blocks { result.blocks ≡ blocks }
    ensures start { result.start ≡ 4096 + generation % 2 * area_size result.blocks }
{
    let from = 4096 + 4096 * ((4 * blocks as u64 + 4095) / 4096);
    let size = from + 4096 * blocks as u64;
    Place {
        blocks,
        start: 4096 + generation % 2 * size,
        from,
    }
}

/// Where content block n stands in an area.
#[tactic(auto, using(crate::proofs::SizeLaws::sizes))]
pub fn content_at(place: &Place, n: u32) -> u64
    requires { n < place.now.blocks }
    ensures place { result ≡ contents_from place.now.blocks + 4096 * n }
    ensures behind { 1 ≤ result }
    ensures fits { result + 4096 ≤ area_size place.now.blocks }
{
    place.from + 4096 * n as u64
}

/// Where entry n stands in an area.
#[tactic(auto, using(crate::proofs::SizeLaws::sizes))]
pub fn entry_at(place: &Place, n: u32) -> u64
    requires { n < place.now.blocks }
    ensures place { result ≡ 4096 + 4 * n }
    ensures fits { result + 4 ≤ area_size place.now.blocks }
{
    let _from = place.from;
    4096 + 4 * n as u64
}

/// Where a home block stands on the disk.
#[tactic(auto, using(crate::proofs::SizeLaws::sizes))]
pub fn home_at(place: &Place, number: u32) -> u64
    ensures { result ≡ home_start place.now.blocks + 4096 * number }
{
    let size = place.from + 4096 * place.blocks as u64;
    4096 + 2 * size + 4096 * number as u64
}
