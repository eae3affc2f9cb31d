// The two profiles, and the rows that each admits.
ghost use Rattle.std.specs.Prelude.{◌≡◌};
ghost use Rattle.text.specs.Bytes.{among};
ghost use Rattle.rows.specs.RowSets.{reply_rows, rows_of};

// By which profile a transaction is read.
#[derive(Clone, Copy, Debug, PartialEq, Eq, Drop)]
pub enum ProfileName {
    // Nonconformance reports.
    Report,
    // Storage-quality replies.
    Reply,
}

// Whether a reply may have the row, stretch by stretch.
fn in_replies(row: u8) -> bool
    ensures { result ≡ among reply_rows row }
{
    matches!(
        row,
        1..=2 | 12 | 17..=19 | 23..=26 | 30..=31 | 46..=49 | 51 | 56 | 64 | 71 | 79
    )
}

// Whether the profile admits the row: a report may have any.
pub fn admits(profile: ProfileName, row: u8) -> bool
    ensures { result ≡ rows_of profile row }
{
    match profile {
        ProfileName::Report => true,
        ProfileName::Reply => in_replies(row),
    }
}
