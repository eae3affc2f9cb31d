// Lists of levels whose HL01s fall together, so that a name is compared with few others. A list is known by its last level, and each
// level's note names the one before it: numbers in lent tables, since the library has no heap.
ghost use Rattle.std.specs.Prelude.{◌≡◌, ◌%◌, get_or, set};
ghost use Rattle.finding.specs.internal.Lists.{lists, place_of};

// How many lists there are.
pub const LISTS: usize = 512;

// The list that an HL01 belongs to. Names that count fall evenly.
#[tactic(auto, unfolding(crate::specs::internal::Lists::place_of))]
pub fn place_of(id: &[u8]) -> usize
    ensures { result ≡ place_of id.now }
{
    let mut place: usize = 0;
    for b in id {
        place = (place * 37 + *b as usize) % LISTS;
    }
    place
}

// The last level of a list; 0 for none, as the lent array holds it.
pub fn last_in(lasts: &[u32; LISTS], place: usize) -> usize
    ensures { result ≡ get_or lasts.now (place % lists) 0 }
{
    lasts[place % LISTS] as usize
}

// Makes level n the last of a list.
pub fn put_last(lasts: &mut [u32; LISTS], place: usize, n: usize)
    ensures { lasts.new ≡ set lasts.old (place % lists) (n % 4294967296) }
{
    lasts[place % LISTS] = (n % 4294967296) as u32;
}
