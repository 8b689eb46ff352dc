//! Reading the text of a transcript: words and numbers, one line, and all lines in sequence.

pub(crate) mod data;
pub(crate) mod error;
pub(crate) mod grouping;
pub(crate) mod head;
pub(crate) mod lexing;
pub(crate) mod line;
pub(crate) mod names;
pub(crate) mod reader;
pub(crate) mod reading;
pub(crate) mod so_far;
pub(crate) mod steps;
pub(crate) mod taking;
