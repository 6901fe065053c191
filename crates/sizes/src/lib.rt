// The number of buckets of each heap, and their sizes, in a list that `bounds` reads (document 01, "One-level heap" and "Two-level heap").
#![tactic(auto)]

ghost use Rattle.std.specs.Prelude.{◌≡◌, ◌+◌, ◌≤◌};
ghost use Rattle.theory.specs.Shape.{ceil_log};
ghost use Rattle.theory.specs.Runs.{Allowed, heap_buckets};
ghost use Rattle.sizes.specs.Sizes.{two_level_sizes, sizes_of};

use theory::Levels;

// The least exponent whose power of `base` is above `ceiling`, for both heaps. The next power is formed only
// from one that is not above `ceiling`, so that it fits.
fn ceil_log(base: u32, ceiling: u32) -> u32
    requires le_base { 2 ≤ base }
    requires base_bound { base ≤ 64 }
    requires ceiling_bound { ceiling ≤ 1048575 }
    ensures { result ≡ ceil_log base (ceiling + 1) }
{
    let mut exponent = 0;
    let mut power = 1;
    while power <= ceiling {
        power *= base;
        exponent += 1;
    }
    exponent
}

// B. The two-level heap has 2 buckets at least.
pub fn buckets(levels: Levels, ceiling: u32) -> u32
    requires ceiling_bound { ceiling ≤ 1048575 }
    requires allowed { Allowed levels }
    ensures { result ≡ heap_buckets levels ceiling }
{
    match levels {
        Levels::One => ceil_log(2, ceiling) + 2,
        Levels::Two { segments } => (ceil_log(segments, ceiling) + 1).max(2),
    }
}

// The sizes of the buckets, of the one-level heap as they are for every run.
pub fn sizes(levels: Levels) -> [u32; 22]
    ensures { result ≡ sizes_of levels }
{
    match levels {
        Levels::One => [
            1, 1, 1, 2, 4, 8, 16, 32, 64, 128, 256, 512, 1024, 2048, 4096, 8192, 16384, 32768,
            65536, 131072, 262144, 524288,
        ],
        Levels::Two { segments } => two_level_sizes(segments),
    }
}

// The powers of K = segments, and a 0 at the last place, which is no bucket's. Not inlined: the power table would stand in the frame that one
// level shares.
#[inline(never)]
fn two_level_sizes(segments: u32) -> [u32; 22]
    ensures { result ≡ two_level_sizes segments }
{
    let powers = powers::row(segments);
    let mut sizes = [0; 22];
    for i in 0..21 {
        sizes[i] = powers[i];
    }
    sizes
}
