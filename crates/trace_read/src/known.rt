//! What the lines of a trace may name.
ghost use Rattle.std.specs.Prelude.{◌≡◌, IfOk, length, map, vec_len};
ghost use Rattle.std.specs.Str.{IsUtf8};
ghost use Rattle.set_read.specs.Document as document;
ghost use Rattle.trace_lines.specs.Known as known;
ghost use Rattle.trace_read.specs.Seen.{AreTexts, Tells};

use rt_task::{Setup, Task};
use set_read::Names;
use std::alloc::{AllocError, Global};
use std::marker::Model;
use std::str;
use trace_lines::{Format, Version};

/// The format of a trace and its set, and the numbers of the set's tasks by their names.
#[derive(Drop)]
pub struct Known<'a> {
    format: Format<'a>,
    names: Names<'a>,
}

impl<'a> Model for Known<'a> {
    ghost use Rattle.std.specs.Prelude.{◌≡◌};
    ghost use Rattle.trace_lines.specs.Known.{Known, known_in};
    ghost use Rattle.trace_read.specs.Seen.{AreTexts};

    ghost Value = { Known };

    ghost view = { λ a. known_in a.format };

    ghost invariant = { λ a. (a.names ≡ (known_in a.format).names)
        × AreTexts a.format.parts.now.tasks };
}

impl<'a> Known<'a> {
    /// What the lines of a trace in this format of this set may name.
    pub fn of(alloc: Global, version: Version, setup: &'a Setup) -> Result<Known<'a>, AllocError>
        ensures known { IfOk result (λ k. k ≡ known.known_of version setup.now) }
        ensures tells { IfOk result (λ k. Tells k) }
    {
        let parts = setup.parts();
        let names = Names::of(alloc, names_of(alloc, parts.tasks.as_slice())?)?;
        Ok(Known {
            format: Format { version, parts },
            names,
        })
    }

    pub(crate) fn format(&self) -> &Format<'a>
        ensures { known.known_in result.now ≡ self.now }
    {
        &self.format
    }

    pub(crate) fn version(&self) -> Version
        ensures { result ≡ self.now.version }
    {
        self.format.version
    }

    /// The number of the task with this name, and 0 where no task has it.
    #[tactic(auto, using(crate::proofs::TellLaws::not_found))]
    pub(crate) fn number(&self, name: &[u8]) -> u32
        ensures { result ≡ document.position_from 1 self.now.names name.now }
    {
        match str::from_utf8(name) {
            Ok(text) => self.names.number(text),
            Err(_) => 0,
        }
    }

    /// How many tasks the set has.
    #[tactic(auto, using(crate::proofs::TellLaws::names_count))]
    pub(crate) fn tasks(&self) -> usize
        ensures { result ≡ length self.now.names }
    {
        self.format.parts.tasks.as_slice().len()
    }

    /// How many semaphores the set has.
    pub(crate) fn sems(&self) -> usize
        ensures { result ≡ self.now.sems }
    {
        self.format.parts.sems.as_slice().len()
    }
}

/// A name as text.
fn text_of(name: &[u8]) -> &str
    requires { IsUtf8 name.now }
    ensures { result.now ≡ name.now }
{
    match str::from_utf8(name) {
        Ok(text) => text,
        Err(_) => "",
    }
}

/// The names of the tasks, in order.
fn names_of<'a>(alloc: Global, tasks: &'a [Task]) -> Result<Vec<&'a str>, AllocError>
    requires { AreTexts tasks.now }
    ensures count { IfOk result (λ v. vec_len v ≡ length tasks.now) }
    ensures names { IfOk result (λ v. map (λ w. w.now) v.items ≡ known.task_names tasks.now) }
{
    let mut names = Vec::new(alloc);
    for task in tasks {
        names.push(text_of(task.name.as_slice()))?;
    }
    Ok(names)
}
