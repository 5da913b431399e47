// What is printed of a row that differs.
use crate::spelling::put_spelled;
use crate::{Answer, Row};
use anyhow::Result;
use std::alloc::AllocError;

// Puts lines that spell a text.
fn put_text(report: &mut String, text: &[u8]) -> Result<(), AllocError> {
    let mut last = b'\n';
    for byte in text.iter() {
        if last == b'\n' {
            report.push('>')?;
        }
        last = *byte;
        put_spelled(report, last)?;
    }
    if last != b'\n' {
        report.push_str("\\\n")?;
    }
    Ok(())
}

/// Prints a row that differs: its name, the answer that is wanted, and what came in its place.
pub(crate) fn print_report(rt: &HostRuntime, row: &Row, answer: &Answer) -> Result<()> {
    let mut report = String::new(rt.alloc());
    write!(
        report,
        "row {} differs\nwanted {}\n",
        row.name, row.wanted.status
    )?;
    put_text(&mut report, &row.wanted.text)?;
    write!(report, "got {}\n", answer.status)?;
    put_text(&mut report, &answer.text)?;
    print!(rt; "{report}")?;
    Ok(())
}
