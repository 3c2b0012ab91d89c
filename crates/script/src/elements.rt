// Elements and octets in text.
use crate::filters::Row;
use crate::kinds::OperationKind;
use element::answer::number;
use element::{Answer, BareOperation, Element, SetOperation};
use std::fmt;

// HEX, in capitals; `-` for no octets.
#[derive(Clone, Copy)]
pub struct Hex<'a>(pub &'a [u8]);

impl fmt::Display for Hex<'_> {
    fn fmt<W: fmt::Write>(&self, f: &mut fmt::Formatter<W>) -> fmt::Result {
        if self.0.is_empty() {
            return f.write_str("-");
        }
        // Eight at a time: each is some four times dearer by itself.
        let (eights, rest) = self.0.as_chunks::<8>();
        for eight in eights {
            write!(f, "{:016X}", u64::from_be_bytes(*eight))?;
        }
        for octet in rest {
            write!(f, "{octet:02X}")?;
        }
        Ok(())
    }
}

// What an element says, in lines: its cause and place, or its operation, identifiers and filters, and `end`.
#[derive(Clone, Copy)]
pub struct ElementLines<'a>(pub &'a Element);

impl fmt::Display for ElementLines<'_> {
    fn fmt<W: fmt::Write>(&self, f: &mut fmt::Formatter<W>) -> fmt::Result {
        let Element {
            answer,
            filters,
            marks,
        } = self.0;
        let operation = match *answer {
            Answer::Filters(SetOperation::Create) => OperationKind::Create,
            Answer::Filters(SetOperation::Add) => OperationKind::Add,
            Answer::Filters(SetOperation::Replace) => OperationKind::Replace,
            Answer::Identifiers => OperationKind::DeleteFilters,
            Answer::Bare(BareOperation::DeleteTft) => OperationKind::DeleteTft,
            Answer::Bare(BareOperation::NoOperation) => OperationKind::NoOperation,
            Answer::Refused(refusal) => {
                return writeln!(f, "cause {} at {}", number(*answer), refusal.place);
            }
        };
        write!(f, "{operation}")?;
        for (identifier, marked) in marks.iter().enumerate() {
            if *marked {
                write!(f, " {identifier}")?;
            }
        }
        writeln!(f, "\n{}end", Row(filters))
    }
}
