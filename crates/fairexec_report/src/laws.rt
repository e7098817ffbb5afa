//! Laws of what is told of a run.

ghost use Rattle.fairexec_report.specs.BadTexts.{TextsAreRefused};
ghost use Rattle.fairexec_report.specs.Reports.{PlainReportIsShort, ReportIsDetermined, WrongReportsAreRefused};

/// The same journals, with the same wishes, are told by one text. With neither journals nor statistics, the outcomes and the verdict are the
/// whole text.
///
/// No text is right with journals or statistics that nobody asked for, nor without the line of the verdict. No statistics are right
/// without a core's line, with one too many, or of a core that is told as drained and isn't. An empty text isn't sound.
pub fn hold()
    ensures report_is_determined { ReportIsDetermined }
    ensures plain_report_is_short { PlainReportIsShort }
    ensures wrong_reports_are_refused { WrongReportsAreRefused }
    ensures wrong_texts_are_refused { TextsAreRefused }
{}
