//! What the words of a call name.

use crate::said::is_standard;
use common_values::text::Word;
use std::fs::{self, Files};
use std::io::{self, ErrorKind, Read};
use std::str;

/// Standard input, or a file. The file is opened when it is first read: a topology that is refused leaves the tables
/// alone, and two pipes may be written one after the other.
#[derive(Drop)]
pub enum Input<'a, R: Files, S> {
    /// No word names it.
    Nothing,
    /// Standard input.
    Standard(S),
    /// The file with this name, not yet opened.
    Named { files: &'a R, name: &'a Word },
    /// A file that is open.
    File(R::File),
}

impl<'a, R: Files, S: Drop> Input<'a, R, S> {
    /// What a word names, if there is one.
    pub fn named(files: &'a R, standard: S, name: Option<&'a Word>) -> Self {
        match name {
            None => Input::Nothing,
            Some(name) if is_standard(name.as_bytes()) => Input::Standard(standard),
            Some(name) => Input::Named { files, name },
        }
    }
}

// Opens the file with this name.
fn open<R: Files>(files: &R, name: &Word) -> io::Result<R::File> {
    match str::from_utf8(name.as_bytes()) {
        Ok(name) => fs::open(files, name),
        Err(_error) => Err(io::Error::from(ErrorKind::InvalidInput)),
    }
}

impl<'a, R: Files, S: Read + Drop> Read for Input<'a, R, S> {
    fn read(&mut self, buf: &mut [u8]) -> io::Result<usize> {
        match self {
            Input::Nothing => Err(io::Error::from(ErrorKind::NotFound)),
            Input::Standard(standard) => standard.read(buf),
            Input::File(file) => file.read(buf),
            Input::Named { files, name } => {
                let mut file = open(*files, *name)?;
                let read = file.read(buf);
                *self = Input::File(file);
                read
            }
        }
    }
}
