//! What happens to a switch, and the line that describes it.

use crate::fault::Fault;
use an_base::life::Life;
use an_base::port::Sample;
use hex::FromHexError;
use std::alloc::Global;

/// What happens to a switch.
#[derive(Drop)]
pub enum Happening {
    /// The switch is started.
    Start {
        /// Its life.
        life: Life,
        /// The epoch.
        epoch: u64,
        /// The short address that it had before.
        had: u8,
        /// Whether its tables have all legal routes.
        any: bool,
    },
    /// A clock comes.
    Clock {
        /// The tick.
        now: u64,
        /// What is at each port.
        samples: [Sample; 12],
    },
    /// Bytes come.
    Frame {
        /// The port.
        port: u8,
        /// The bytes.
        bytes: Vec<u8>,
    },
    /// The switch loads the table.
    Load,
}

// Returns the word at an index, or an empty one after the last.
fn word<'a>(words: &[&'a str], place: usize) -> &'a str {
    words.get(place).copied().unwrap_or("")
}

// Returns the number at an index.
fn number(words: &[&str], place: usize) -> Result<u64, Fault> {
    match word(words, place).parse::<u64>() {
        Ok(number) => Ok(number),
        Err(_error) => Err(Fault::Number),
    }
}

// Returns the number at an index, which must be below 2^32.
fn short_number(words: &[&str], place: usize) -> Result<u32, Fault> {
    match word(words, place).parse::<u32>() {
        Ok(number) => Ok(number),
        Err(_error) => Err(Fault::Number),
    }
}

// Returns the number at an index, which must be below 256.
fn byte(words: &[&str], place: usize) -> Result<u8, Fault> {
    match word(words, place).parse::<u8>() {
        Ok(number) => Ok(number),
        Err(_error) => Err(Fault::Number),
    }
}

// The lowest number that is not an identifier.
const UID_END: u64 = 1 << 48;

// Returns the life with an identifier and a boot.
fn life(uid: u64, boot: u32) -> Result<Life, Fault> {
    if uid >= UID_END {
        return Err(Fault::Number);
    }
    if boot < 1 {
        return Err(Fault::Number);
    }
    Ok(Life::new(uid, boot))
}

// Reads the words of `start`.
fn start(words: &[&str]) -> Result<Happening, Fault> {
    let routes = word(words, 5);
    if words.len() != 6 || (routes != "any" && routes != "least") {
        return Err(Fault::Line);
    }
    Ok(Happening::Start {
        life: life(number(words, 1)?, short_number(words, 2)?)?,
        epoch: number(words, 3)?,
        had: byte(words, 4)?,
        any: routes == "any",
    })
}

// Returns what a letter says of a port.
fn sample(letter: u8) -> Result<Sample, Fault> {
    match letter {
        b'd' => Ok(Sample::Down),
        b'h' => Ok(Sample::Host),
        b's' => Ok(Sample::Switch),
        _ => Err(Fault::Line),
    }
}

// Reads the words of `clock`.
fn clock(words: &[&str]) -> Result<Happening, Fault> {
    let letters = word(words, 2);
    if words.len() != 3 || letters.len() != 12 {
        return Err(Fault::Line);
    }
    let mut samples = [Sample::Down; 12];
    for (place, letter) in samples.iter_mut().zip(letters.as_bytes()) {
        *place = sample(*letter)?;
    }
    Ok(Happening::Clock {
        now: number(words, 1)?,
        samples,
    })
}

// Returns the bytes that a word encodes.
fn bytes(alloc: Global, word: &str) -> Result<Vec<u8>, Fault> {
    if word == "-" {
        return Ok(Vec::new(alloc));
    }
    match hex::decode(alloc, word) {
        Ok(bytes) => Ok(bytes),
        Err(FromHexError::OutOfMemory) => Err(Fault::OutOfMemory),
        Err(_error) => Err(Fault::Line),
    }
}

// Reads the words of `frame`.
fn frame(alloc: Global, words: &[&str]) -> Result<Happening, Fault> {
    if words.len() != 3 {
        return Err(Fault::Line);
    }
    Ok(Happening::Frame {
        port: byte(words, 1)?,
        bytes: bytes(alloc, word(words, 2))?,
    })
}

// Returns what the words describe.
fn said(alloc: Global, words: &[&str]) -> Result<Happening, Fault> {
    let first = word(words, 0);
    if first == "start" {
        return start(words);
    }
    if first == "clock" {
        return clock(words);
    }
    if first == "frame" {
        return frame(alloc, words);
    }
    if first == "load" && words.len() == 1 {
        return Ok(Happening::Load);
    }
    Err(Fault::Line)
}

/// Returns what a line describes.
///
/// # Errors
/// The `Fault` of the line: `Line`, `Number` or `OutOfMemory`.
pub fn happening_of(alloc: Global, line: &str) -> Result<Happening, Fault> {
    let words: Vec<&str> = line.split_ascii_whitespace().collect(alloc)?;
    said(alloc, &words)
}
