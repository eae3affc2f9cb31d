// One line on standard error that says what was sent, where the bytes show it. It changes no verdict.
use crate::warning;
use elements::verdict::Reason;
use gate::answer::Refusal;
use std::io::Write;
use text::separators;
use text::separators::Separators;

// Whether a byte order mark comes first, of UTF-8 or of UTF-16.
fn marked(report: &[u8]) -> bool {
    report.starts_with(&[0xEF, 0xBB, 0xBF])
        || report.starts_with(&[0xFF, 0xFE])
        || report.starts_with(&[0xFE, 0xFF])
}

// Whether the report opens with an ST whose separators are others: the first byte behind it that may serve as a separator and is neither
// `*` nor `:` is not `~`.
fn otherwise_separated(report: &[u8]) -> bool {
    let Some(behind) = report.strip_prefix(b"ST") else {
        return false;
    };
    behind
        .iter()
        .find(|byte| {
            separators::may_serve(**byte)
                && **byte != Separators::ELEMENT
                && **byte != Separators::COMPONENT
        })
        .is_some_and(|byte| *byte != Separators::TERMINATOR)
}

// What was sent, where the bytes of a report that is refused so show it.
fn sent(report: &[u8], refusal: Refusal) -> Option<&'static str> {
    if report.starts_with(b"ISA") {
        Some(
            "a whole interchange (ISA): the gate reads one transaction, from its ST to the end of its SE",
        )
    } else if report.starts_with(b"GS") {
        Some(
            "a functional group (GS): the gate reads one transaction, from its ST to the end of its SE",
        )
    } else if marked(report) {
        Some("a byte order mark comes first: a report begins with ST")
    } else if refusal.segment == 1 && otherwise_separated(report) {
        Some(
            "its separators are not the standard * : ~ that this program reads; a caller of the library can name others",
        )
    } else if refusal.reason == Reason::TooLong {
        Some("longer than the 65,536 bytes that this program reads; the library reads 1,048,576")
    } else if refusal.reason == Reason::NoRoom {
        Some(
            "more than the 1,000 segments or 200 levels that this program has room for; a caller of the library can lend more",
        )
    } else {
        None
    }
}

// After a refusal.
pub fn after_refusal<E: Write>(err: &mut E, report: &[u8], refusal: Refusal, name: &[u8]) {
    if let Some(hint) = sent(report, refusal) {
        warning::warn(err, name, hint);
    }
}

// After an acceptance of so many bytes: what stands behind them, other than line ends, may be a report of its own.
pub fn after_acceptance<E: Write>(err: &mut E, report: &[u8], used: usize, name: &[u8]) {
    let Some(behind) = report.get(used..) else {
        return;
    };
    if behind.iter().any(|byte| *byte != b'\r' && *byte != b'\n') {
        warning::about(err, name);
        warning::say(err, ": bytes behind its SE that were not looked at: ");
        warning::say(err, behind.len());
        warning::say(err, "\n");
    }
}
