// How a transaction is to be read.
use rows::profile::ProfileName;
use text::lines::LineEnds;
use text::separators::Separators;

#[derive(Clone, Copy, Drop)]
pub struct How {
    pub separators: Separators,
    // Whether line ends between segments are skipped.
    pub lines: LineEnds,
    // By which profile.
    pub profile: ProfileName,
}
