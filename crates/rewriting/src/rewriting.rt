// Rewriting one transaction with other separators.
ghost use Rattle.std.specs.Prelude.{◌≡◌, Ok};
ghost use Rattle.gate.specs.Answers.{refused};
ghost use Rattle.rewriting.specs.Rewrites.{OutcomeOf, Rewrites};
ghost use Rattle.rewriting.specs.internal.Rewritable.{segments_of, Rewritable};

use crate::change::Change;
use crate::table::Reading;
use crate::{collisions, writing};
use elements::verdict::Reason;
use gate::answer::{Answer, Refusal};
use gate::how::How;
use rows::profile::ProfileName;
use text::lines::LineEnds;
use text::separators::Separators;

// A refusal that names no segment.
fn refused(reason: Reason, element: usize) -> Answer
    ensures { result ≡ refused reason 0 0 element }
{
    Err(Refusal {
        reason,
        segment: 0,
        byte: 0,
        element,
    })
}

// Writes the segments of an accepted reading; 18 or 19 where that cannot be.
fn write_accepted(reading: Reading, output: &mut [u8]) -> Answer
    requires { Rewritable reading }
    ensures { let r = reading.entry in OutcomeOf r.change.old r.change.new (segments_of r) (Ok r.accepted) r.accepted.bytes output.old result output.new }
{
    if let Some(clash) = collisions::find_clash(reading) {
        return Err(Refusal {
            reason: Reason::Collision,
            segment: clash.segment,
            byte: clash.byte,
            element: clash.element,
        });
    }
    if output.len() < reading.accepted.bytes {
        return refused(Reason::ShortOutput, 0);
    }
    writing::write_segments(reading, output);
    Ok(reading.accepted)
}

// Reads one transaction by the profile and writes it to the output with the new separators. Where it is refused the output keeps its bytes;
// the tables are left as reading alone leaves them.
pub fn rewrite(
    s: &[u8],
    profile: ProfileName,
    old: Separators,
    new: Separators,
    segments: &mut [u64],
    levels: &mut [u64],
    output: &mut [u8],
) -> Answer
    ensures { Rewrites profile old new s.now (record { segments = segments.old; levels = levels.old }) output.old result
        (record { segments = segments.new; levels = levels.new }) output.new }
{
    if !old.fit() {
        return refused(Reason::UnfitSeparators, 0);
    }
    if !new.fit() {
        return refused(Reason::UnfitSeparators, 1);
    }
    let strictly = How {
        separators: old,
        lines: LineEnds::Strict,
        profile,
    };
    let accepted = reading::reading::read(s, strictly, segments, levels)?;
    let reading = Reading {
        bytes: s,
        segments,
        accepted,
        change: Change { old, new },
    };
    write_accepted(reading, output)
}
