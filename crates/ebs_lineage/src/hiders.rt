// Which nodes hide the blocks that earlier ones keep.
use std::alloc::{AllocError, Global};
use std::collections::BTreeMap;
use std::marker::Model;

/// A node that hides the block which another one keeps at an index.
#[derive(Clone, Copy, Debug, PartialEq, Eq, PartialOrd, Ord)]
pub struct Hiding {
    pub node: u64,
    pub index: u32,
    pub by: u64,
}

/// The nodes that hide a block, by its place. Once memory was wanting for one of them, none is told any more.
#[derive(Debug, Drop)]
pub struct Hiders {
    hidings: BTreeMap<Hiding, ()>,
    is_whole: bool,
}

impl Model for Hiders {
    ghost use Rattle.ebs_lineage.specs.Hiders.{HiderTable, hider_code};

    ghost Value = { HiderTable };

    ghost coded = { hider_code };

    ghost use Rattle.ebs_lineage.specs.Noted.{hiders_shown};

    ghost view = { λ a. hiders_shown a };
}

impl Hiders {
    ghost use Rattle.std.specs.Prelude.{◌≡◌, ◌≤◌, ℕ, Some, true, false};
    ghost use Rattle.std.specs.FinMap as map;
    ghost use Rattle.ebs_lineage.specs.Hiders.{HiderTable, IsNextHider, IsForgotten, with_hiding, without_hiding};

    pub fn new(alloc: Global) -> Self
        ensures { result ≡ record { hidings = map.empty; is_whole = true } }
    {
        Hiders {
            hidings: BTreeMap::new(alloc),
            is_whole: true,
        }
    }

    /// Whether each node that hides a block was noted.
    pub fn is_whole(&self) -> bool
        ensures { result ≡ self.now.is_whole }
    {
        self.is_whole
    }

    /// The earliest node at or behind the given one that hides the block.
    pub fn next(&self, node: u64, index: u32, from: u64) -> Option<u64>
        ensures { IsNextHider self.now node index from result }
    {
        let start = Hiding {
            node,
            index,
            by: from,
        };
        let (hiding, _) = self.hidings.range(start..).next()?;
        if hiding.node != node || hiding.index != index {
            return None;
        }
        Some(hiding.by)
    }

    /// The block is hidden by this node too.
    pub fn note(&mut self, node: u64, index: u32, by: u64)
        ensures { self.new.is_whole ≡ true → self.new ≡ with_hiding self.old node index by }
    {
        match self.hidings.insert(Hiding { node, index, by }, ()) {
            Ok(_) => {}
            Err(_) => self.is_whole = false,
        }
    }

    /// The block isn't noted to be hidden by this node any more.
    pub fn remove(&mut self, node: u64, index: u32, by: u64)
        ensures { self.new ≡ without_hiding self.old node index by }
    {
        self.hidings.remove(&Hiding { node, index, by });
    }

    /// The block is gone.
    pub fn forget(&mut self, node: u64, index: u32)
        ensures { IsForgotten self.old self.new node index }
    {
        while let Some(by) = self.next(node, index, 0) {
            self.remove(node, index, by);
        }
    }
}
