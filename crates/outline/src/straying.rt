// How far a level table leaves the order of an outline.
ghost use Rattle.std.specs.Prelude.{◌≡◌, ◌*◌, ◌≤◌, length};
ghost use Rattle.levels.specs.Widths.{level_width};
ghost use Rattle.outline.specs.Walks.{FitTable};
ghost use Rattle.outline.specs.internal.Straying.{above_of, with_level, last_stray};

use crate::records;

// The latest level so far of depth at most 1, 2 and 3; 0 where there is none, as a parent's number is. No array: a level is asked about by the depth above
// it, and kept by its own, and depth 4 has no place.
#[derive(Clone, Copy, Drop)]
pub struct Latest {
    pub first: usize,
    pub second: usize,
    pub third: usize,
}

impl Latest {
    // The latest level that is less deep.
    fn above(self, depth: u64) -> usize
        ensures { result ≡ above_of self depth }
    {
        match depth {
            2 => self.first,
            3 => self.second,
            4 => self.third,
            _ => 0,
        }
    }

    // With level k of that depth.
    fn with(self, k: usize, depth: u64) -> Latest
        ensures { result ≡ with_level self k depth }
    {
        Latest {
            first: if depth <= 1 { k } else { self.first },
            second: if depth <= 2 { k } else { self.second },
            third: if depth <= 3 { k } else { self.third },
        }
    }
}

// The last of the levels 1 to count whose parent is not the latest level before it that is less deep; 0 where there is none. Behind it the
// levels under one stand together, so the number serves as a bound.
pub(crate) fn last_stray(levels: &[u64], count: usize) -> usize
    requires count_in_bounds { level_width * count ≤ length levels.now }
    requires fit_table { FitTable levels.now count }
    ensures { result ≡ last_stray levels.now count }
{
    let mut latest = Latest {
        first: 0,
        second: 0,
        third: 0,
    };
    let mut stray = 0;
    for k in 1..=count {
        let depth = records::depth_in(levels, k);
        if records::parent_in(levels, k) != latest.above(depth) as u64 {
            stray = k;
        }
        latest = latest.with(k, depth);
    }
    stray
}
