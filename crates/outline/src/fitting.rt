// Whether a level table is fit to be walked.
ghost use Rattle.std.specs.Prelude.{◌≡◌, ◌*◌, ◌≤◌, length};
ghost use Rattle.levels.specs.Widths.{level_width};
ghost use Rattle.outline.specs.Walks.{Fit};
ghost use Rattle.outline.specs.internal.Fitting.{Decides, FirstUnfit};

use crate::records;

// Whether level k is fit: no parent and depth 1, or an earlier parent that is one less deep; and no deeper than 4.
fn is_fit(levels: &[u64], k: usize) -> bool
    requires { (1 ≤ k) × (level_width * k ≤ length levels.now) }
    ensures { Decides result (Fit levels.now k) }
{
    let parent = records::parent_in(levels, k);
    let depth = records::depth_in(levels, k);
    if parent == 0 {
        return depth == 1;
    }
    if (k as u64 <= parent) | (depth < 1) | (4 < depth) {
        return false;
    }
    records::depth_in(levels, parent as usize) == depth - 1
}

// The first of the levels 1 to count that is unfit; none where all are fit.
pub(crate) fn first_unfit(levels: &[u64], count: usize) -> Option<usize>
    requires { level_width * count ≤ length levels.now }
    ensures { FirstUnfit levels.now count result }
{
    (1..count + 1).find(|k| !is_fit(levels, *k))
}
