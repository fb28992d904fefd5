// The files of a case, its words, and what they must come to.
use crate::text::push_line;
use std::alloc::{AllocError, Global};

/// A file in memory.
#[derive(Drop)]
pub(crate) struct Held {
    pub(crate) name: String,
    pub(crate) bytes: Vec<u8>,
}

/// Words that are run, and what they must come to.
#[derive(Drop)]
pub(crate) struct Case {
    pub(crate) words: String,
    pub(crate) by_each_number: bool,
    pub(crate) written: Vec<u8>,
    pub(crate) noted: Vec<u8>,
}

impl Case {
    /// A case that is to write nothing.
    pub(crate) fn new(
        alloc: Global,
        words: &str,
        by_each_number: bool,
    ) -> Result<Case, AllocError> {
        Ok(Case {
            words: String::from_str(alloc, words)?,
            by_each_number,
            written: Vec::new(alloc),
            noted: Vec::new(alloc),
        })
    }

    /// One line more is to be written.
    pub(crate) fn write(&mut self, line: &str) -> Result<(), AllocError> {
        push_line(&mut self.written, line)
    }

    /// One line more is to be noted.
    pub(crate) fn note(&mut self, line: &str) -> Result<(), AllocError> {
        push_line(&mut self.noted, line)
    }
}
