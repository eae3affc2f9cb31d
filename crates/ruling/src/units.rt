// How many components NCA05 has.
ghost use Rattle.std.specs.Prelude.{◌≡◌, ◌==◌, count_by, leb, length};
ghost use Rattle.elements.specs.internal.Layouts.{components_by};

// How many bytes of the part are the separator.
fn separator_count(p: &[u8], separator: u8) -> usize
    ensures { result ≡ count_by (λ b. b == separator) p.now }
{
    p.iter().filter(|b| **b == separator).count()
}

// Whether the units have no more than fifteen components.
pub(crate) fn few_units(single: bool, separator: u8, p: &[u8]) -> bool
    ensures { result ≡ leb (length (components_by single separator p.now)) 15 }
{
    if single {
        return true;
    }
    separator_count(p, separator) <= 14
}
