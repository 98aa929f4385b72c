//! The tools that the program hands in.
ghost use Rattle.std.specs.Prelude.{◌≡◌, map, IfOk};
ghost use Rattle.trace_tools.specs.Shipped.{shipped};

use crate::first_miss::FirstMiss;
use crate::migrations::Migrations;
use crate::misses::Misses;
use crate::occupancy::Occupancy;
use crate::shown::Shown;
use crate::switches::Switches;
use crate::tool::TraceTool;
use rt_base::NoMemory;
use std::alloc::Global;

/// One of the five tools that the program hands in.
#[derive(Drop)]
pub enum ShippedTool {
    Misses(Misses),
    Switches(Switches),
    Migrations(Migrations),
    Occupancy(Occupancy),
    FirstMiss(FirstMiss),
}

impl TraceTool for ShippedTool {
    ghost use Rattle.trace_tools.specs.Choice.{tool_by};

    ghost tool = { tool_by ⟦<Misses as TraceTool>⟧.tool ⟦<Switches as TraceTool>⟧.tool
        ⟦<Migrations as TraceTool>⟧.tool ⟦<Occupancy as TraceTool>⟧.tool
        ⟦<FirstMiss as TraceTool>⟧.tool };

    #[inline(always)]
    fn feed(&mut self, e: &Shown) {
        match self {
            ShippedTool::Misses(tool) => tool.feed(e),
            ShippedTool::Switches(tool) => tool.feed(e),
            ShippedTool::Migrations(tool) => tool.feed(e),
            ShippedTool::Occupancy(tool) => tool.feed(e),
            ShippedTool::FirstMiss(tool) => tool.feed(e),
        }
    }

    fn total(&self, i: u32) -> Option<u64> {
        match self {
            ShippedTool::Misses(tool) => tool.total(i),
            ShippedTool::Switches(tool) => tool.total(i),
            ShippedTool::Migrations(tool) => tool.total(i),
            ShippedTool::Occupancy(tool) => tool.total(i),
            ShippedTool::FirstMiss(tool) => tool.total(i),
        }
    }

    fn ended(&self) -> bool {
        match self {
            ShippedTool::Misses(tool) => tool.ended(),
            ShippedTool::Switches(tool) => tool.ended(),
            ShippedTool::Migrations(tool) => tool.ended(),
            ShippedTool::Occupancy(tool) => tool.ended(),
            ShippedTool::FirstMiss(tool) => tool.ended(),
        }
    }

    fn name(&self) -> u8 {
        match self {
            ShippedTool::Misses(tool) => tool.name(),
            ShippedTool::Switches(tool) => tool.name(),
            ShippedTool::Migrations(tool) => tool.name(),
            ShippedTool::Occupancy(tool) => tool.name(),
            ShippedTool::FirstMiss(tool) => tool.name(),
        }
    }
}

/// The five tools, in the order of their count lines: `M`, `S`, `G`, `O`, `F`.
pub fn shipped_tools(alloc: Global) -> Result<Vec<ShippedTool>, NoMemory>
    ensures { IfOk result (λ v. map ⟦<ShippedTool as TraceTool>⟧.tool v.items ≡ shipped) }
{
    let migrations = Migrations::new(alloc)?;
    let tools = vec![in alloc;
        ShippedTool::Misses(Misses::new()),
        ShippedTool::Switches(Switches::new()),
        ShippedTool::Migrations(migrations),
        ShippedTool::Occupancy(Occupancy::new()),
        ShippedTool::FirstMiss(FirstMiss::new()),
    ];
    Ok(tools?)
}
