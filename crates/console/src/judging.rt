// A report as both programs read it.
use crate::refusing;
use gate::answer::Accepted;
use gate::how::How;
use rows::profile::ProfileName;
use std::io;
use std::io::Write;
use text::lines::LineEnds;
use text::separators::Separators;

// Reads the report with the standard separators, by the profile of nonconformance reports and past line ends between segments. Where it is
// refused says why, and what was sent where the bytes show it.
pub fn judge<O: Write, E: Write>(
    out: &mut O,
    err: &mut E,
    report: &[u8],
    name: &[u8],
    segments: &mut [u64],
    levels: &mut [u64],
) -> io::Result<Option<Accepted>> {
    let how = How {
        separators: Separators::standard(),
        lines: LineEnds::Skipped,
        profile: ProfileName::Report,
    };
    match reading::reading::read(report, how, segments, levels) {
        Ok(accepted) => Ok(Some(accepted)),
        Err(refusal) => {
            refusing::refuse(out, err, report, name, refusal)?;
            Ok(None)
        }
    }
}
