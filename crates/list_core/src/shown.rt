//! The items and builds that a walk has shown.
ghost use Rattle.std.specs.Prelude.{◌≡◌, ◌++◌, ◌∷◌, [], List, OnOk};
ghost use Rattle.list_core.specs.Shown.{AreShown};
ghost use Rattle.list_core.specs.Trace.{is_shown};
ghost use Rattle.list_core.specs.declared.walk.Step.{Step};

use crate::walk::Node;
use std::alloc::{AllocError, Global};
use std::collections::HashSet;

/// Their numbers, found by their hashes.
#[derive(Drop)]
pub struct Shown {
    items: HashSet<u64>,
    builds: HashSet<u64>,
}

impl Shown {
    /// None yet.
    pub fn new(alloc: Global) -> Self
        ensures { AreShown result [] }
    {
        Shown {
            items: HashSet::new(alloc),
            builds: HashSet::new(alloc),
        }
    }

    /// Whether the node is among them.
    pub fn has(&self, node: Node) -> bool
        ensures { (steps : List Step) → AreShown self.now steps → result ≡ is_shown node steps }
    {
        match node {
            Node::Item(number) => self.items.contains(&number),
            Node::Build(number) => self.builds.contains(&number),
            Node::Unknown(_) | Node::Delivery(_, _) => false,
        }
    }

    /// The node is shown, too. An error is one of memory.
    pub fn add(&mut self, node: Node) -> Result<(), AllocError>
        ensures { OnOk result ((steps : List Step) → (step : Step) → step.node ≡ node
            → AreShown self.old steps → AreShown self.new (steps ++ step ∷ [])) }
    {
        match node {
            Node::Item(number) => {
                self.items.insert(number)?;
            }
            Node::Build(number) => {
                self.builds.insert(number)?;
            }
            Node::Unknown(_) | Node::Delivery(_, _) => {}
        }
        Ok(())
    }
}
