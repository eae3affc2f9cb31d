// A refusal: its line on standard output, and a hint where the bytes show what was sent.
use crate::hints;
use gate::answer::Refusal;
use std::io;
use std::io::Write;

// Says that the report with this name is refused so.
pub fn refuse<O: Write, E: Write>(
    out: &mut O,
    err: &mut E,
    report: &[u8],
    name: &[u8],
    refusal: Refusal,
) -> io::Result<()> {
    let Refusal {
        reason,
        segment,
        byte,
        element,
    } = refusal;
    let number = reason.number();
    writeln!(
        out,
        "refused {number} segment {segment} byte {byte} element {element}"
    )?;
    hints::after_refusal(err, report, refusal, name);
    Ok(())
}
