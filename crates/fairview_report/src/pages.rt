//! What is asked for of the text of journals, as one page.

ghost use Rattle.std.specs.Prelude.{◌≡◌, true, false, IfErr, IfOk, IfSome, string_bytes};
ghost use Rattle.fairview_report.specs.Views.{IsFaultOf, ShowsText};
ghost use Rattle.fairview_report.specs.Views as spec;
ghost use Rattle.fairview_report.specs.declared.view.View.TheVariants as views;

use crate::fault::ViewFault;
use crate::lag::put_lags;
use crate::poll::PollRows;
use crate::share::{Form, put_shares};
use crate::story::put_story;
use crate::view::View;
use crate::wait::put_waits;
use crate::walks::Walks;
use base_words::{CoreNo, JobId};
use fairview_lag::{CoreLags, put_lag};
use fairview_pictures::{Cut, put_gantt, put_trace};
use judge_view::{CoreShares, JobWalk};
use note_journal::Assembly;
use std::alloc::Global;
use text_bytes::Source;
use text_journal::{pass_journal, read_journal};

/// What is asked for of the journals whose text the source tells.
///
/// Waits, shares, polls and the text of lags are told note by note, and no note is kept. The others go over the journals more than once.
///
/// # Errors
///
/// As those of `view_text`, except for a failed write.
pub(crate) fn page_of<R: Source>(
    alloc: Global,
    view: View,
    source: &mut R,
) -> Result<String, ViewFault>
    ensures ok { IfOk result (λ page. IfSome (R.remaining source.old) (ShowsText view (string_bytes page))) }
    ensures fault { IfErr result (IsFaultOf view R.remaining R.tries R.reads R.interrupts R.fails source.old source.new) }
{
    match view {
        View::Waits { plain } => waits_page(alloc, plain, source),
        View::Shares { form } => shares_page(alloc, form, source),
        View::Story { name } => story_page(alloc, &name, source),
        View::Polls => polls_page(alloc, source),
        View::Gantt { cut } => gantt_page(alloc, cut, source),
        View::Lag { text } => lag_page(alloc, text, source),
        View::Trace => trace_page(alloc, source),
    }
}

/// How long jobs waited and ran.
fn waits_page<R: Source>(alloc: Global, plain: bool, source: &mut R) -> Result<String, ViewFault>
    ensures ok { IfOk result (λ page. IfSome (R.remaining source.old) (ShowsText (views.Waits plain) (string_bytes page))) }
    ensures fault { IfErr result (IsFaultOf (views.Waits plain) R.remaining R.tries R.reads R.interrupts R.fails source.old source.new) }
{
    let walked = match pass_journal(Walks::<JobWalk>::new(alloc), source) {
        Ok(walked) => walked,
        Err(fault) => return Err(ViewFault::from(fault)),
    };
    let mut page = String::new(alloc);
    match put_waits(alloc, plain, &walked, &mut page) {
        Ok(()) => Ok(page),
        Err(_) => Err(ViewFault::Memory),
    }
}

/// What each queue got.
fn shares_page<R: Source>(alloc: Global, form: Form, source: &mut R) -> Result<String, ViewFault>
    ensures ok { IfOk result (λ page. IfSome (R.remaining source.old) (ShowsText (views.Shares form) (string_bytes page))) }
    ensures fault { IfErr result (IsFaultOf (views.Shares form) R.remaining R.tries R.reads R.interrupts R.fails source.old source.new) }
{
    let walked = match pass_journal(Walks::<CoreShares>::new(alloc), source) {
        Ok(walked) => walked,
        Err(fault) => return Err(ViewFault::from(fault)),
    };
    let mut page = String::new(alloc);
    match put_shares(alloc, form, &walked, &mut page) {
        Ok(()) => Ok(page),
        Err(_) => Err(ViewFault::Memory),
    }
}

/// A row for each poll.
fn polls_page<R: Source>(alloc: Global, source: &mut R) -> Result<String, ViewFault>
    ensures ok { IfOk result (λ page. IfSome (R.remaining source.old) (ShowsText views.Polls (string_bytes page))) }
    ensures fault { IfErr result (IsFaultOf views.Polls R.remaining R.tries R.reads R.interrupts R.fails source.old source.new) }
{
    let Ok(rows) = PollRows::new(alloc) else {
        return Err(ViewFault::Memory);
    };
    match pass_journal(rows, source) {
        Ok(page) => Ok(page),
        Err(fault) => Err(ViewFault::from(fault)),
    }
}

/// The story of a submission.
fn story_page<R: Source>(alloc: Global, name: &JobId, source: &mut R) -> Result<String, ViewFault>
    ensures ok { IfOk result (λ page. IfSome (R.remaining source.old) (ShowsText (views.Story name.now) (string_bytes page))) }
    ensures fault { IfErr result (IsFaultOf (views.Story name.now) R.remaining R.tries R.reads R.interrupts R.fails source.old source.new) }
{
    let assembly = match read_journal(alloc, source) {
        Ok(assembly) => assembly,
        Err(fault) => return Err(ViewFault::from(fault)),
    };
    let mut page = String::new(alloc);
    match put_story(alloc, name, &assembly, &mut page) {
        Ok(()) => Ok(page),
        Err(_) => Err(ViewFault::Memory),
    }
}

/// The picture of the polls.
fn gantt_page<R: Source>(alloc: Global, cut: Cut, source: &mut R) -> Result<String, ViewFault>
    ensures ok { IfOk result (λ page. IfSome (R.remaining source.old) (ShowsText (views.Gantt cut) (string_bytes page))) }
    ensures fault { IfErr result (IsFaultOf (views.Gantt cut) R.remaining R.tries R.reads R.interrupts R.fails source.old source.new) }
{
    let assembly = match read_journal(alloc, source) {
        Ok(assembly) => assembly,
        Err(fault) => return Err(ViewFault::from(fault)),
    };
    if let Some(core) = absent_of(cut.core, assembly.cores()) {
        return Err(ViewFault::Core(core));
    }
    let mut page = String::new(alloc);
    match put_gantt(alloc, &assembly, &cut, &mut page) {
        Ok(()) => Ok(page),
        Err(_) => Err(ViewFault::Memory),
    }
}

/// How far each two queues were apart, as text or as a picture.
fn lag_page<R: Source>(alloc: Global, text: bool, source: &mut R) -> Result<String, ViewFault>
    ensures ok { IfOk result (λ page. IfSome (R.remaining source.old) (ShowsText (views.Lag text) (string_bytes page))) }
    ensures fault { IfErr result (IsFaultOf (views.Lag text) R.remaining R.tries R.reads R.interrupts R.fails source.old source.new) }
{
    if text {
        lag_text_page(alloc, source)
    } else {
        lag_picture_page(alloc, source)
    }
}

/// The lines of how far each two queues were apart.
fn lag_text_page<R: Source>(alloc: Global, source: &mut R) -> Result<String, ViewFault>
    ensures ok { IfOk result (λ page. IfSome (R.remaining source.old) (ShowsText (views.Lag true) (string_bytes page))) }
    ensures fault { IfErr result (IsFaultOf (views.Lag true) R.remaining R.tries R.reads R.interrupts R.fails source.old source.new) }
{
    let walked = match pass_journal(Walks::<CoreLags>::new(alloc), source) {
        Ok(walked) => walked,
        Err(fault) => return Err(ViewFault::from(fault)),
    };
    let mut page = String::new(alloc);
    match put_lags(alloc, &walked, &mut page) {
        Ok(()) => Ok(page),
        Err(_) => Err(ViewFault::Memory),
    }
}

/// The picture of how far each two queues were apart.
fn lag_picture_page<R: Source>(alloc: Global, source: &mut R) -> Result<String, ViewFault>
    ensures ok { IfOk result (λ page. IfSome (R.remaining source.old) (ShowsText (views.Lag false) (string_bytes page))) }
    ensures fault { IfErr result (IsFaultOf (views.Lag false) R.remaining R.tries R.reads R.interrupts R.fails source.old source.new) }
{
    let assembly = match read_journal(alloc, source) {
        Ok(assembly) => assembly,
        Err(fault) => return Err(ViewFault::from(fault)),
    };
    let mut page = String::new(alloc);
    match put_lag(alloc, &assembly, &mut page) {
        Ok(()) => Ok(page),
        Err(_) => Err(ViewFault::Memory),
    }
}

/// The run in the trace event format.
fn trace_page<R: Source>(alloc: Global, source: &mut R) -> Result<String, ViewFault>
    ensures ok { IfOk result (λ page. IfSome (R.remaining source.old) (ShowsText views.Trace (string_bytes page))) }
    ensures fault { IfErr result (IsFaultOf views.Trace R.remaining R.tries R.reads R.interrupts R.fails source.old source.new) }
{
    let assembly = match read_journal(alloc, source) {
        Ok(assembly) => assembly,
        Err(fault) => return Err(ViewFault::from(fault)),
    };
    let mut page = String::new(alloc);
    match put_trace(alloc, &assembly, &mut page) {
        Ok(()) => Ok(page),
        Err(_) => Err(ViewFault::Memory),
    }
}

/// A core, if so many cores don't have it.
fn absent_of(core: Option<CoreNo>, cores: u8) -> Option<CoreNo>
    ensures { result ≡ spec.absent_of core cores }
{
    let core = core?;
    if core.0 < cores { None } else { Some(core) }
}
