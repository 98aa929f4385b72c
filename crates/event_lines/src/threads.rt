//! The threads of processes, with what their events begin with.
ghost use Rattle.std.specs.Prelude.{◌≡◌, ◌++◌, codes, IfOk, OnOk};
ghost use Rattle.event_texts.specs.Records.{on_thread};
ghost use Rattle.event_lines.specs.inside.Openings.{instants_on, letter, spans_on};

use crate::put::put;
use crate::records::{Phase, put_on_thread};
use std::alloc::{AllocError, Global};
use std::marker::Model;

/// A thread, with what its spans and its instants begin with, up to their tick.
#[derive(Drop)]
pub(crate) struct Thread {
    process: u64,
    number: u64,
    span: Vec<u8>,
    instant: Vec<u8>,
}

impl Model for Thread {
    ghost use Rattle.std.specs.Prelude.{◌≡◌};
    ghost use Rattle.event_lines.specs.inside.Openings as seen;
    ghost use Rattle.event_lines.specs.inside.Openings.{instants_on, spans_on};

    ghost Value = { seen.Thread };

    ghost view = { λ a. record { process = a.process; number = a.number } };

    ghost invariant = { λ a.
        (a.span.items ≡ spans_on (record { process = a.process; number = a.number }))
        × (a.instant.items ≡ instants_on (record { process = a.process; number = a.number })) };
}

/// What the events of a thread begin with, up to their tick.
#[tactic(auto, using(crate::proofs::Joins::joins))]
fn opening_of(alloc: Global, phase: Phase, process: u64, number: u64) -> Result<Vec<u8>, AllocError>
    ensures { IfOk result (λ v. v.items
        ≡ on_thread (letter phase) process number ++ codes ",\"ts\":") }
{
    let mut opening = Vec::new(alloc);
    put_on_thread(&mut opening, phase, process, number)?;
    put(&mut opening, b",\"ts\":")?;
    Ok(opening)
}

impl Thread {
    /// The thread of this number.
    pub(crate) fn new(alloc: Global, process: u64, number: u64) -> Result<Thread, AllocError>
        ensures { IfOk result (λ t. t ≡ record { process = process; number = number }) }
    {
        let span = opening_of(alloc, Phase::Span, process, number)?;
        let instant = opening_of(alloc, Phase::Instant, process, number)?;
        Ok(Thread {
            process,
            number,
            span,
            instant,
        })
    }

    /// A span, up to its tick.
    pub(crate) fn open_span(&self, text: &mut Vec<u8>) -> Result<(), AllocError>
        ensures { OnOk result (text.new.items ≡ text.old.items ++ spans_on self.now) }
    {
        put(text, self.span.as_slice())
    }

    /// An instant, up to its tick.
    pub(crate) fn open_instant(&self, text: &mut Vec<u8>) -> Result<(), AllocError>
        ensures { OnOk result (text.new.items ≡ text.old.items ++ instants_on self.now) }
    {
        put(text, self.instant.as_slice())
    }
}
