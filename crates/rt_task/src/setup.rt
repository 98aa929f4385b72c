//! Valid sets.
ghost use Rattle.std.specs.Prelude.{◌≡◌, IfOk, IfErr};
ghost use Rattle.rt_task.specs.Validity.{IsValid};

use crate::{Parts, SetStop};
use rt_base::NoMemory;
use std::alloc::Global;
use std::marker::Model;
use std::sync::Arc;

/// A set that breaks no rule; it shares its parts with its clones.
#[derive(Drop)]
pub struct Setup {
    parts: Arc<Parts>,
}

impl Model for Setup {
    ghost use Rattle.rt_task.specs.declared.Parts.{Parts};
    ghost use Rattle.rt_task.specs.Validity.{IsValid};

    ghost Value = { Parts };

    ghost view = { λ a. a.parts.value };

    ghost invariant = { λ a. IsValid a.parts.value };
}

impl Setup {
    /// The parts that the setup was made of.
    pub fn parts(&self) -> &Parts
        ensures parts { result.now ≡ self.now }
        ensures valid { IsValid self.now }
    {
        &self.parts
    }

    /// Another owner of the same parts.
    pub fn share(&self) -> Result<Setup, NoMemory>
        ensures { IfOk result (λ s. s ≡ self.now) }
    {
        let parts = Arc::try_clone(&self.parts)?;
        Ok(Setup { parts })
    }

    /// A setup of parts that break no rule.
    pub fn of_valid(alloc: Global, parts: Parts) -> Result<Setup, SetStop>
        requires { IsValid parts }
        ensures setup { IfOk result (λ s. s ≡ parts) }
        ensures memory { IfErr result (λ e. e ≡ SetStop.NoMemory) }
    {
        let parts = Arc::new(alloc, parts)?;
        Ok(Setup { parts })
    }
}
