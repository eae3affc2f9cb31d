// The numbers of a level's record; levels are numbered from 1. Each has a function of its own, so that a call says which it reads.
ghost use Rattle.std.specs.Prelude.{◌≡◌, ◌*◌, ◌≤◌, length};
ghost use Rattle.levels.specs.Widths.{level_width};
ghost use Rattle.outline.specs.Outline.{parent_in, depth_in};

use levels::widths::LEVEL_WIDTH;

// The number of its parent; 0 for none.
pub(crate) fn parent_in(levels: &[u64], k: usize) -> u64
    requires { (1 ≤ k) × (level_width * k ≤ length levels.now) }
    ensures { result ≡ parent_in levels.now k }
{
    levels[LEVEL_WIDTH * (k - 1) + 1]
}

// Its depth.
pub(crate) fn depth_in(levels: &[u64], k: usize) -> u64
    requires { (1 ≤ k) × (level_width * k ≤ length levels.now) }
    ensures { result ≡ depth_in levels.now k }
{
    levels[LEVEL_WIDTH * (k - 1) + 2]
}
