//! Writing a transcript, and comparing a text with the text that would be written.

pub(crate) mod comparison;
pub(crate) mod line_buffer;
pub(crate) mod line_writer;
pub(crate) mod place;
pub(crate) mod writing;
