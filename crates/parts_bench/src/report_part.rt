//! A report from standard input that is read back and printed again.
use crate::timing::{no_memory, since};
use report_read::{ReadRefusal, read_report};
use report_text::print_report;
use std::io;
use std::io::Read;
use std::time::Instant;

/// Prints whether the bytes are the same, or which line is the first wrong one; and, where turns are wanted, how many
/// lines it reads a second, and prints again.
pub fn measure_report(host: &HostRuntime, wanted: Option<u32>) -> io::Result<()> {
    let mut text = Vec::new(host.alloc());
    host.stdin().read_to_end(&mut text)?;
    let lines = text.iter().filter(|b| **b == b'\n').count() as u64;
    let start = Instant::now(host)?;
    let report = match read_report(host.alloc(), &text) {
        Ok(report) => report,
        Err(ReadRefusal::Line { line }) => return println!(host; "line {line}"),
        Err(ReadRefusal::Memory) => return Err(no_memory()),
    };
    let reading = since(host, start, lines)?;
    let start = Instant::now(host)?;
    let Ok(again) = print_report(host.alloc(), &report) else {
        return Err(no_memory());
    };
    let printing = since(host, start, lines)?;
    let same = again.as_slice() == text.as_slice();
    println!(host; "read back; printed again it is the same: {same}")?;
    if wanted.is_some() {
        println!(host;
            "{lines} lines, {} bytes; a second: {} lines read back, {} printed",
            text.len(),
            reading.rate(),
            printing.rate()
        )?;
    }
    Ok(())
}
