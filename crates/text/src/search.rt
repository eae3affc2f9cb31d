// Searching bytes for a byte.
ghost use Rattle.std.specs.Prelude.{◌≡◌, eqb, position};
ghost use Rattle.text.specs.Bytes.{among};
ghost use Rattle.text.specs.internal.Search.{Finds};

// The first place where the byte stands.
pub fn first_place(s: &[u8], byte: u8) -> Option<usize>
    ensures { result ≡ position (eqb byte) s.now }
{
    s.iter().position(|b| byte == *b)
}

// The first place from `from` on where the byte stands.
#[tactic(auto, using(crate::proofs::Searching::finds_behind, crate::proofs::Searching::finds_none))]
pub(crate) fn find(s: &[u8], from: usize, byte: u8) -> Option<usize>
    ensures { Finds s.now from byte result }
{
    let rest = s.get(from..)?;
    let gap = first_place(rest, byte)?;
    Some(from + gap)
}

// Whether the byte stands among them.
pub fn holds(s: &[u8], byte: u8) -> bool
    ensures { result ≡ among s.now byte }
{
    s.contains(&byte)
}
