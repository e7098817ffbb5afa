//! Laws of what is escaped.

ghost use Rattle.fairview_marks.specs.EscapeLaws.{XmlEndsNothing, JsonEndsNothing, BareBytesAreRefused};

/// No byte of an escaped text ends a tag or a quoted value.
pub fn xml_ends_nothing()
    ensures { XmlEndsNothing }
{}

/// No byte of an escaped text ends its string, and none is a control byte.
pub fn json_ends_nothing()
    ensures { JsonEndsNothing }
{}

/// Texts that aren't escaped end a tag, a quoted value, or a string.
pub fn bare_bytes_are_refused()
    ensures { BareBytesAreRefused }
{}
