//! The lines of a script that let something happen, behind their first word.

ghost use Rattle.std.specs.Prelude.{◌≡◌, ◌≤◌, ◌+◌, length};
ghost use Rattle.text_words.specs.Words.{others};
ghost use Rattle.fairexec_script.specs.EventLines as spec;

use crate::event::ScriptEvent;
use crate::line::Line;
use crate::polls::read_job;
use base_jobs::ScriptJob;
use base_words::{ActorNo, CoreNo, JobId, Order};
use text_words::field::{
    actor_field, both, core_field, mode_field, queue_field, shares_field, submission_field,
};
use text_words::{Cause, Words};

/// The sender and the receiver of an order.
fn link_fields(cores: u8, fields: &mut Words<'_>) -> Result<(ActorNo, CoreNo), Cause>
    requires { 1 ≤ cores }
    ensures link { result ≡ spec.link_fields cores fields.old }
    ensures rest { fields.new ≡ others (others fields.old) }
{
    let from = actor_field(fields.next_word(), cores);
    let to = core_field(fields.next_word(), cores);
    both(from, to)
}

/// `s d q POLL ..`
pub(crate) fn submit_line(cores: u8, fields: &mut Words<'_>, polls: usize) -> Result<Line, Cause>
    requires cores { 1 ≤ cores }
    requires some { 1 ≤ polls }
    requires most { polls ≤ 64 }
    requires left { length fields.old ≡ polls + 3 }
    ensures { result ≡ spec.submit_line cores fields.old }
{
    let link = link_fields(cores, fields);
    let queue = queue_field(fields.next_word());
    let mut job = ScriptJob::done(0, 0);
    let found = read_job(fields, cores, polls, &mut job);
    match both(link, both(queue, found)) {
        Ok(((from, to), (queue, ()))) => {
            let order = Order::Job(queue, job);
            Ok(Line::Step(ScriptEvent::Send(from, to, order)))
        }
        Err(cause) => Err(cause),
    }
}

/// `s d w`
pub(crate) fn create_line(cores: u8, fields: &mut Words<'_>) -> Result<Line, Cause>
    requires { 1 ≤ cores }
    ensures { result ≡ spec.create_line cores fields.old }
{
    let link = link_fields(cores, fields);
    let shares = shares_field(fields.next_word());
    let ((from, to), shares) = both(link, shares)?;
    Ok(Line::Step(ScriptEvent::Send(from, to, Order::Create(shares))))
}

/// `s d q w`
pub(crate) fn shares_line(cores: u8, fields: &mut Words<'_>) -> Result<Line, Cause>
    requires { 1 ≤ cores }
    ensures { result ≡ spec.shares_line cores fields.old }
{
    let link = link_fields(cores, fields);
    let queue = queue_field(fields.next_word());
    let shares = shares_field(fields.next_word());
    match both(link, both(queue, shares)) {
        Ok(((from, to), (queue, shares))) => {
            let order = Order::SetShares(queue, shares);
            Ok(Line::Step(ScriptEvent::Send(from, to, order)))
        }
        Err(cause) => Err(cause),
    }
}

/// `s d q MODE`
pub(crate) fn close_line(cores: u8, fields: &mut Words<'_>) -> Result<Line, Cause>
    requires { 1 ≤ cores }
    ensures { result ≡ spec.close_line cores fields.old }
{
    let link = link_fields(cores, fields);
    let queue = queue_field(fields.next_word());
    let mode = mode_field(fields.next_word());
    match both(link, both(queue, mode)) {
        Ok(((from, to), (queue, mode))) => {
            let order = Order::Close(queue, mode);
            Ok(Line::Step(ScriptEvent::Send(from, to, order)))
        }
        Err(cause) => Err(cause),
    }
}

/// `s d MODE`
pub(crate) fn closecore_line(cores: u8, fields: &mut Words<'_>) -> Result<Line, Cause>
    requires { 1 ≤ cores }
    ensures { result ≡ spec.closecore_line cores fields.old }
{
    let link = link_fields(cores, fields);
    let mode = mode_field(fields.next_word());
    let ((from, to), mode) = both(link, mode)?;
    Ok(Line::Step(ScriptEvent::Send(from, to, Order::CloseCore(mode))))
}

/// `s d a n`
pub(crate) fn wake_line(cores: u8, fields: &mut Words<'_>) -> Result<Line, Cause>
    requires { 1 ≤ cores }
    ensures { result ≡ spec.wake_line cores fields.old }
{
    let link = link_fields(cores, fields);
    let actor = actor_field(fields.next_word(), cores);
    let number = submission_field(fields.next_word());
    match both(link, both(actor, number)) {
        Ok(((from, to), (actor, number))) => {
            let order = Order::Wake(actor, number);
            Ok(Line::Step(ScriptEvent::Send(from, to, order)))
        }
        Err(cause) => Err(cause),
    }
}

/// A core and a sender of it.
fn gate_fields(cores: u8, fields: &mut Words<'_>) -> Result<(CoreNo, ActorNo), Cause>
    requires { 1 ≤ cores }
    ensures { result ≡ spec.gate_fields cores fields.old }
{
    let core = core_field(fields.next_word(), cores);
    let from = actor_field(fields.next_word(), cores);
    both(core, from)
}

/// `d s`
pub(crate) fn deliver_line(cores: u8, fields: &mut Words<'_>) -> Result<Line, Cause>
    requires { 1 ≤ cores }
    ensures { result ≡ spec.deliver_line cores fields.old }
{
    let (core, from) = gate_fields(cores, fields)?;
    Ok(Line::Step(ScriptEvent::Deliver(core, from)))
}

/// `d`
pub(crate) fn turn_line(cores: u8, fields: &mut Words<'_>) -> Result<Line, Cause>
    requires { 1 ≤ cores }
    ensures { result ≡ spec.turn_line cores fields.old }
{
    let core = core_field(fields.next_word(), cores)?;
    Ok(Line::Step(ScriptEvent::Turn(core)))
}

/// `d s`
pub(crate) fn shut_line(cores: u8, fields: &mut Words<'_>) -> Result<Line, Cause>
    requires { 1 ≤ cores }
    ensures { result ≡ spec.shut_line cores fields.old }
{
    let (core, from) = gate_fields(cores, fields)?;
    Ok(Line::Step(ScriptEvent::Shut(core, from)))
}

/// `s d`
pub(crate) fn collect_line(cores: u8, fields: &mut Words<'_>) -> Result<Line, Cause>
    requires { 1 ≤ cores }
    ensures { result ≡ spec.collect_line cores fields.old }
{
    let (from, to) = link_fields(cores, fields)?;
    Ok(Line::Step(ScriptEvent::Collect(from, to)))
}

/// The name of a submission, by its sender, its receiver and its number.
fn name_fields(cores: u8, fields: &mut Words<'_>) -> Result<JobId, Cause>
    requires { 1 ≤ cores }
    ensures { result ≡ spec.name_fields cores fields.old }
{
    let link = link_fields(cores, fields);
    let number = submission_field(fields.next_word());
    let ((from, to), number) = both(link, number)?;
    Ok(JobId { from, to, number })
}

/// `s d n`
pub(crate) fn redeem_line(cores: u8, fields: &mut Words<'_>) -> Result<Line, Cause>
    requires { 1 ≤ cores }
    ensures { result ≡ spec.redeem_line cores fields.old }
{
    let name = name_fields(cores, fields)?;
    Ok(Line::Step(ScriptEvent::Redeem(name)))
}

/// `s d n`
pub(crate) fn detach_line(cores: u8, fields: &mut Words<'_>) -> Result<Line, Cause>
    requires { 1 ≤ cores }
    ensures { result ≡ spec.detach_line cores fields.old }
{
    let name = name_fields(cores, fields)?;
    Ok(Line::Step(ScriptEvent::Detach(name)))
}
