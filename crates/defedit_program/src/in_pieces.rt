//! The text of a design as what the output file gets.

ghost use Rattle.std.specs.Prelude.{◌≡◌, IfOk};
ghost use Rattle.std.specs.Io.KnownBytes.{Appends};
ghost use Rattle.design_text.specs.DesignTexts.{text_of};

use counted_devices::counted::Counted;
use design_text::text::DesignText;
use output_file::{FileText, OutputFault};
use std::io::Write;

/// The text of a design in pieces, which are written one after the other.
#[derive(Drop)]
pub(crate) struct InPieces {
    pub(crate) text: DesignText,
}

impl FileText for InPieces {
    ghost bytes = { λ p. text_of p.text };

    fn write_into<W: Write + Drop>(&self, file: W) -> Result<W, OutputFault> {
        let mut counted = Counted::new(file);
        match self.text.write_to(&mut counted) {
            Ok(()) => Ok(counted.into_inner()),
            Err(_) => Err(OutputFault::Write),
        }
    }
}
