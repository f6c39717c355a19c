//! The fields of a line: parts of it between single separators.

use tele_lines::number;

/// The rest of a line, whose fields are separated by single separators.
#[derive(Drop)]
pub struct Fields<'a> {
    rest: Option<&'a [u8]>,
    separator: u8,
}

/// Splits the text into its fields, one more than it has separators.
pub fn parts_of(text: &[u8], separator: u8) -> Fields<'_> {
    Fields {
        rest: Some(text),
        separator,
    }
}

impl<'a> Fields<'a> {
    /// Returns the next field, if one is left.
    pub fn take(&mut self) -> Option<&'a [u8]> {
        let rest = self.rest?;
        let separator = self.separator;
        match rest.iter().position(|byte| *byte == separator) {
            None => {
                self.rest = None;
                Some(rest)
            }
            Some(at) => {
                self.rest = Some(&rest[at + 1..]);
                Some(&rest[..at])
            }
        }
    }

    /// Returns the number in the next field, if that is one: ASCII digits with a value below 2^64.
    pub fn number(&mut self) -> Option<u64> {
        number(self.take()?)
    }

    /// Returns whether no field is left.
    pub fn is_done(&self) -> bool {
        self.rest.is_none()
    }
}
