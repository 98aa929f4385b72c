//! The nodes of tasks: each in a slab, with its slab key kept by the task's number.
ghost use Rattle.std.specs.Prelude.{◌≡◌, ◌<◌, IfOk, IsSome, None, Some, length, option_map, replicate, slice_index_or, slice_set};
ghost use Rattle.ready_heap.specs.Arena.{with_key, with_position};

use rt_base::{NoMemory, TaskNo};
use rt_rules::Key;
use slab::Slab;
use std::alloc::Global;
use std::marker::Model;

/// What a heap has of a task: its key, and its position in the heap.
#[derive(Clone, Copy)]
pub(crate) struct Node {
    pub(crate) key: Key,
    pub(crate) position: usize,
}

/// The nodes by task number, seen as a list: at each number below the room its node, or none.
#[derive(Drop)]
pub(crate) struct Arena {
    nodes: Slab<Node>,
    // The slab's key of each task's node.
    kept: Vec<Option<usize>>,
}

impl Model for Arena {
    ghost use Rattle.std.specs.Prelude.{List, Option, map};
    ghost use Rattle.ready_heap.specs.declared.arena.Node.{Node};
    ghost use Rattle.ready_heap.specs.Arena.{node_in, IsArena};

    ghost Value = { List (Option Node) };

    ghost view = { λ a. map (node_in a.nodes) a.kept.items };

    ghost invariant = { λ a. IsArena a.nodes a.kept.items };
}

impl Arena {
    pub(crate) fn new(alloc: Global, room: u32) -> Result<Arena, NoMemory>
        ensures { IfOk result (λ arena. arena ≡ replicate room None) }
    {
        let nodes = Slab::with_capacity(alloc, room as usize)?;
        let kept = vec![in alloc; None; room as usize]?;
        Ok(Arena { nodes, kept })
    }

    /// The task's node, if it has one.
    pub(crate) fn get(&self, task: TaskNo) -> Option<Node>
        requires { task.0 < length self.now }
        ensures { result ≡ slice_index_or self.now task.0 None }
    {
        match self.kept[task.0 as usize] {
            Some(at) => self.nodes.get(at).copied(),
            None => None,
        }
    }

    /// Gives a task that has no node this one.
    pub(crate) fn insert(&mut self, task: TaskNo, node: Node)
        requires room { task.0 < length self.old }
        requires absent { slice_index_or self.old task.0 None ≡ None }
        ensures { self.new ≡ slice_set self.old task.0 (Some node) }
    {
        let at = self.nodes.insert_reserved(node);
        self.kept[task.0 as usize] = Some(at);
    }

    /// Takes the task's node away, if it has one.
    pub(crate) fn remove(&mut self, task: TaskNo)
        requires { task.0 < length self.old }
        ensures { self.new ≡ slice_set self.old task.0 None }
    {
        if let Some(at) = self.kept[task.0 as usize] {
            let _ = self.nodes.remove(at);
            self.kept[task.0 as usize] = None;
        }
    }

    /// Sets the position of the task's node, if it has one.
    pub(crate) fn move_to(&mut self, task: TaskNo, position: usize)
        requires { task.0 < length self.old }
        ensures { self.new ≡ slice_set self.old task.0
            (option_map (with_position position) (slice_index_or self.old task.0 None)) }
    {
        if let Some(at) = self.kept[task.0 as usize] {
            if let Some(node) = self.nodes.get_mut(at) {
                node.position = position;
            }
        }
    }

    /// Sets the key of the task's node, if it has one.
    pub(crate) fn rekey(&mut self, task: TaskNo, key: Key)
        requires { task.0 < length self.old }
        ensures { self.new ≡ slice_set self.old task.0
            (option_map (with_key key) (slice_index_or self.old task.0 None)) }
    {
        if let Some(at) = self.kept[task.0 as usize] {
            if let Some(node) = self.nodes.get_mut(at) {
                node.key = key;
            }
        }
    }
}
