// Judging an HL by the levels before it.
ghost use Rattle.gate.specs.Profile.{profile_of};
ghost use Rattle.reading.specs.internal.Judgements.{JudgesLevel};

use crate::judging::Records;
use elements::layout::Parts;
use elements::verdict::{Fault, Reason};
use finding::known::Known;
use finding::{lists, parents, search};
use gate::how::How;
use levels::judging;
use levels::judging::Entitled;

// What the rules of levels say of the HL, where `place` is the list that its HL01 belongs to.
pub(crate) fn judge_level(
    how: How,
    parts: Parts,
    place: usize,
    records: Records,
) -> Result<Entitled, Fault>
    ensures { JudgesLevel (profile_of how).levels parts.entry.bytes.now how.separators.element parts.entry.starts.now parts.entry.layout place
        records.entry.segments.now records.entry.levels.now records.entry.lasts.now result }
{
    let known = Known {
        bytes: parts.bytes,
        separator: how.separators.element,
        segments: records.segments,
        levels: records.levels,
        lasts: records.lasts,
    };
    let id = parts.element(1);
    if search::find(known, place, id).is_some() {
        return Err(Reason::RepeatedName.at_element(1));
    }
    let parent = parts.element(2);
    let code = parts.element(3);
    let mark = parts.element(4);
    if parent.is_empty() {
        return judging::judge_root(how.profile, code, mark);
    }
    let hung = lists::place_of(parent);
    let Some(above) = search::find(known, hung, parent) else {
        return Err(Reason::UnknownParent.at_element(2));
    };
    let found = parents::parent_at(records.levels, above);
    judging::judge_child(how.profile, found, code, mark)
}
