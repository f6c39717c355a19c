//! How many lanes a round has.
ghost use Rattle.std.specs.Prelude.{◌≡◌, ◌≤◌};
ghost use Rattle.tele_generations.specs.Counts.{lane_count};

/// How many lanes a round has if the workers steal them.
pub const STOLEN_LANES: u32 = 64;

/// Returns how many lanes a round has: one per worker, or `STOLEN_LANES` if the workers steal them.
pub fn lane_count(workers: u32, steal: bool) -> u32
    requires some { 1 ≤ workers }
    requires at_most { workers ≤ 64 }
    ensures value { result ≡ lane_count workers steal }
    ensures some { 1 ≤ result }
    ensures at_most { result ≤ 64 }
{
    if steal { STOLEN_LANES } else { workers }
}
