// Ids and counts as text.
use std::fmt;

// An id in quotes: printable ASCII as it is, any other byte, a quote and a backslash by its number.
#[derive(Clone, Copy)]
pub(crate) struct Quoted<'a>(pub &'a [u8]);

impl fmt::Display for Quoted<'_> {
    fn fmt<W: fmt::Write>(&self, f: &mut fmt::Formatter<W>) -> fmt::Result {
        write!(f, "\"")?;
        for b in self.0 {
            let byte = *b;
            if byte >= 32 && byte < 127 && byte != b'"' && byte != b'\\' {
                let c = byte as char;
                write!(f, "{c}")?;
            } else {
                write!(f, "\\x{byte:02X}")?;
            }
        }
        write!(f, "\"")
    }
}

// A count with its noun, one or many.
#[derive(Clone, Copy)]
pub(crate) struct Counted(pub usize, pub &'static str, pub &'static str);

impl fmt::Display for Counted {
    fn fmt<W: fmt::Write>(&self, f: &mut fmt::Formatter<W>) -> fmt::Result {
        let n = self.0;
        let noun = if n == 1 { self.1 } else { self.2 };
        write!(f, "{n} {noun}")
    }
}
