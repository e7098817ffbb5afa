//! The names of submissions, escaped.

ghost use Rattle.std.specs.Prelude.{Some};
ghost use Rattle.text_words.specs.Notes.{name_text};
ghost use Rattle.fairview_marks.specs.Escapes as spec;

use base_words::JobId;
use std::fmt;

/// The name of a submission inside a tag of XML.
#[derive(Clone, Copy)]
pub struct XmlName(pub JobId);

/// The name of a submission inside a string of JSON.
#[derive(Clone, Copy)]
pub struct JsonName(pub JobId);

impl fmt::Display for XmlName {
    ghost output = { λ text. Some (spec.xml_text (name_text text.0)) };

    fn fmt<W: fmt::Write>(&self, f: &mut fmt::Formatter<W>) -> fmt::Result {
        let from = self.0.from.0;
        let to = self.0.to.0;
        let number = self.0.number;
        write!(f, "{from}&gt;{to}#{number}")
    }
}

impl fmt::Display for JsonName {
    ghost output = { λ text. Some (spec.json_text (name_text text.0)) };

    fn fmt<W: fmt::Write>(&self, f: &mut fmt::Formatter<W>) -> fmt::Result {
        let from = self.0.from.0;
        let to = self.0.to.0;
        let number = self.0.number;
        write!(f, "{from}>{to}#{number}")
    }
}
