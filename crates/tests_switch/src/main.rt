//! tests: a program that reads what happens to a switch, and prints what the switch does.
//! Its input is on standard input, so that its output can be compared with an independent model. It handles each
//! line before it looks at the next one. An invalid line ends the program with exit status 1; its number and a
//! reason (`Fault`) are on standard error. If the input is not valid UTF-8, the program ends in the same way before
//! any output.
//!
//! A line is one of these, with all numbers in decimal:
//! - `start UID BOOT EPOCH HAD least` or `.. any`: the lines that follow are about a new switch;
//! - `clock NOW SAMPLES`, with a letter for each port from 1: `d` down, `h` host, `s` switch;
//! - `frame PORT HEX`: these bytes come by a port, `-` if there are none;
//! - `load`.
//!
//! For each line the program prints a line `out PORT HEX` for each outgoing frame, `noframe`, `spent`, and what the
//! switch shows of itself: `note EPOCH`, the ports that are not dead, and `due`, `unacked` and `finished MEMBERS`
//! if they hold. For a load it first prints the epoch and short address, the rows, and the short addresses of the
//! members.
#![tactic(auto)]

mod answer;
mod fault;
mod happening;
mod trace;

use fault::Fault;
use std::io::{self, Read};
use std::process::ExitCode;
use trace::Trace;

// Reports why a line is invalid.
fn refuse(rt: &HostRuntime, number: usize, fault: Fault) -> io::Result<ExitCode> {
    eprintln!(rt; "tests_switch: line {number}: {}", fault.text())?;
    Ok(ExitCode::from(1))
}

// Reports that the input is not valid UTF-8.
fn refuse_all(rt: &HostRuntime) -> io::Result<ExitCode> {
    eprintln!(rt; "tests_switch: {}", Fault::Line.text())?;
    Ok(ExitCode::from(1))
}

// Handles each line, until one is invalid.
fn answer_lines(rt: &HostRuntime, trace: &mut Trace, lines: &str) -> io::Result<ExitCode> {
    for (place, line) in lines.lines().enumerate() {
        match trace.go_on(line) {
            Ok(()) => print!(rt; "{}", trace.text())?,
            Err(fault) => return refuse(rt, place.saturating_add(1), fault),
        }
    }
    Ok(ExitCode::from(0))
}

// Handles each line of a text.
fn answer_all(rt: &HostRuntime, bytes: &[u8]) -> io::Result<ExitCode> {
    match str::from_utf8(bytes) {
        Ok(lines) => answer_lines(rt, &mut Trace::new(rt.alloc()), lines),
        Err(_) => refuse_all(rt),
    }
}

fn main(rt: HostRuntime) -> io::Result<ExitCode> {
    let mut bytes = Vec::new(rt.alloc());
    rt.stdin().read_to_end(&mut bytes)?;
    answer_all(&rt, &bytes)
}
