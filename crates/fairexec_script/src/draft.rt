//! A script as far as its lines are judged.

ghost use Rattle.std.specs.Prelude.{◌≡◌, Ok, Err, IfOk, IfErr, OnOk, OnErr, length, nat_lt, ◌≤◌, ◌+◌};
ghost use Rattle.text_words.specs.Words.{words};
ghost use Rattle.fairexec_script.specs.Drafts as spec;
ghost use Rattle.fairexec_script.specs.Limits.{MayFollow};
ghost use Rattle.text_bytes.specs.Faults.{IfCause};

use crate::counts::CoreCounts;
use crate::event::ScriptEvent;
use crate::kind::{ScriptDraft, is_skipped};
use crate::limits::MOST_QUEUE_LINES;
use crate::line::{Line, first_line, later_line};
use crate::script::Script;
use base_words::{CoreNo, Shares};
use std::alloc::Global;
use std::marker::Model;
use text_bytes::Stop;
use text_words::Cause;

/// A script as far as its lines are judged.
#[derive(Drop)]
pub(crate) struct Draft {
    size: Option<(u8, u16)>,
    // How many polls a turn may have: 1 before a line tells it.
    burst: u8,
    queues: Vec<(CoreNo, Shares)>,
    // How many `queue` lines each core has.
    counts: CoreCounts,
    events: Vec<ScriptEvent>,
}

impl Model for Draft {
    ghost use Rattle.fairexec_script.specs.Drafts.{Drafted};
    ghost use Rattle.fairexec_script.specs.Counts.{HasCountedLines};

    ghost Value = { Drafted };

    ghost view = { λ d. record { size = d.size; burst = d.burst; queues = d.queues.items; events = d.events.items } };

    ghost invariant = { λ d. HasCountedLines
        (record { size = d.size; burst = d.burst; queues = d.queues.items; events = d.events.items }) d.counts };
}

impl Draft {
    /// Before the first line.
    pub(crate) fn new(alloc: Global) -> Draft
        ensures { result ≡ spec.empty_draft }
    {
        Draft {
            size: None,
            burst: 1,
            queues: Vec::new(alloc),
            counts: CoreCounts::new(),
            events: Vec::new(alloc),
        }
    }

    /// What a line that isn't skipped says at its place.
    fn line_at(&self, text: &[u8]) -> Result<Line, Cause>
        ensures line { result
            ≡ spec.line_at self.now.size (nat_lt 0 (length self.now.events)) (words text.now) }
        ensures follows { IfOk result (MayFollow self.now.size) }
    {
        match self.size {
            None => first_line(text),
            Some((cores, _)) => later_line(text, cores, !self.events.is_empty()),
        }
    }

    /// Takes what a line says.
    fn add(&mut self, line: Line) -> Result<(), Stop<Cause>>
        requires { MayFollow self.old.size line }
        ensures ok { OnOk result (spec.with_line self.old line ≡ Ok self.new) }
        ensures faulty { IfErr result (IfCause (λ cause. spec.with_line self.old line ≡ Err cause)) }
        ensures one_more { OnOk result (length self.new.events ≤ length self.old.events + 1) }
        ensures err { OnErr result (self.new ≡ self.old) }
    {
        match line {
            Line::Size(cores, cap, burst) => {
                self.size = Some((cores, cap));
                self.burst = burst;
            }
            Line::Queue(core, shares) => {
                if self.counts.of(core) >= MOST_QUEUE_LINES {
                    return Err(Stop::Cause(Cause::TooManyQueues));
                }
                self.queues.push((core, shares))?;
                self.counts.add(core);
            }
            Line::Step(event) => self.events.push(event)?,
        }
        Ok(())
    }
}

impl ScriptDraft for Draft {
    type Why = Cause;

    type Script = Script;

    ghost use Rattle.std.specs.Prelude.{◌≡◌, length};
    ghost use Rattle.fairexec_script.specs.Drafts.{with_text};
    ghost use Rattle.fairexec_script.specs.Scripts.{drafted};

    ghost told = { λ cause. cause };

    ghost with_text = { with_text };

    ghost size = { λ draft. draft.size };

    ghost steps = { λ draft. length draft.events };

    ghost makes = { λ script draft. draft ≡ drafted script };

    fn of_any(cause: Cause) -> Cause {
        cause
    }

    fn take_text(&mut self, text: &[u8]) -> Result<(), Stop<Cause>> {
        if is_skipped(text) {
            return Ok(());
        }
        match self.line_at(text) {
            Ok(line) => self.add(line),
            Err(cause) => Err(Stop::Cause(cause)),
        }
    }

    fn finish_script(self) -> Option<Script> {
        let Draft {
            size,
            burst,
            queues,
            counts: _,
            events,
        } = self;
        let (cores, cap) = size?;
        Some(Script {
            cores,
            cap,
            burst,
            queues,
            events,
        })
    }
}
