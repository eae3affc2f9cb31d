// Where one pass over a segment found it, and its elements by their numbers.
ghost use Rattle.std.specs.Prelude.{◌≡◌, ◌-◌};
ghost use Rattle.elements.specs.internal.Layouts.{part_between, early_element};

// Where the segment starts and ends, how many elements it has, that no component separator stands in it, and that rule 6 holds of it.
#[derive(Clone, Copy, Drop)]
pub struct Layout {
    pub at: usize,
    pub end: usize,
    pub count: usize,
    pub single: bool,
    pub ended: bool,
}

// A segment by its layout: the bytes it stands in, where its tag and its first elements start, and the layout.
#[derive(Clone, Copy, Drop)]
pub struct Parts<'a, 's> {
    pub bytes: &'a [u8],
    pub starts: &'s [usize; 33],
    pub layout: Layout,
}

// The bytes from one place up to another; none where there are no such bytes.
fn part_between<'a>(s: &'a [u8], from: usize, to: usize) -> &'a [u8]
    ensures { result.now ≡ part_between s.now from to }
{
    s.get(from..to).unwrap_or(&[])
}

impl<'a, 's> Parts<'a, 's> {
    // The bytes of element k, the tag being element 0; none past the last, and none past element 31.
    #[tactic(auto, unfolding(crate::specs::internal::Layouts::element_in))]
    pub fn element(self, k: usize) -> &'a [u8]
        ensures { result.now ≡ early_element self.entry.bytes.now self.entry.starts.now self.entry.layout k }
    {
        let Parts {
            bytes,
            starts,
            layout,
        } = self;
        if (32 <= k) | (layout.count < k) {
            return &[];
        }
        if k < layout.count {
            return part_between(bytes, starts[k], starts[k + 1].saturating_sub(1));
        }
        part_between(bytes, starts[k], layout.end)
    }
}
