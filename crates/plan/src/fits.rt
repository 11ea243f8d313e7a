// The ranges and the layout, as tests.
ghost use Rattle.std.specs.Prelude.{◌≡◌};
ghost use Rattle.rules.specs.Plan.{version1};
ghost use Rattle.plan.specs.File.{points_fit, counts_fit, laid_out, weight_fits};

use crate::Header;

// Whether a number of points is in range.
pub fn points_fit(n: u32) -> bool
    ensures { result ≡ points_fit version1 n }
{
    (1 <= n) & (n <= 64)
}

// Whether the numbers of limits and of links are in range.
pub fn counts_fit(m: usize, k: usize) -> bool
    ensures { result ≡ counts_fit version1 m k }
{
    (m <= 1_024) & (k <= 32)
}

// Whether a weight is in range.
pub fn weight_fits(w: i32) -> bool
    ensures { result ≡ weight_fits version1 w }
{
    (-1_000_000 <= w) & (w <= 1_000_000)
}

// Whether the records and the file's end are where they belong. At this width no count can make a sum wrap.
pub fn laid_out(size: usize, h: Header) -> bool
    ensures { result ≡ laid_out size h }
{
    let links_at = 24 + 12 * (h.limits as usize);
    let end = links_at + 16 * (h.links as usize);
    (h.limits_at == 24) & (h.links_at as usize == links_at) & (size == end)
}
