//! The chain of a renewed queue, and its links.

ghost use Rattle.std.specs.Prelude.{◌≡◌, ◌∷◌, ◌++◌, ℕ, ◌<◌, IfOk, OnOk};
ghost use Rattle.arena.specs.Chain.{IsAmong, IsChain};
ghost use Rattle.arena.specs.Place.{IsClient};
ghost use Rattle.renewal.specs.Renewed.{SaysFollower, chain, follower, node_of, removed, waiting};
ghost use Rattle.renewal.specs.Words.{AreLinksOf};

use crate::renewal::Renewal;
use std::alloc::{AllocError, Global};
use words::Client;

impl Renewal<'_> {
    /// Adds the client's node, if one stands for the call that it was told of.
    fn add_node(&self, client: Client, nodes: &mut Vec<u32>) -> Result<(), AllocError>
        requires { IsClient self.now.shape client.0 }
        ensures { OnOk result (nodes.new.items ≡ nodes.old.items ++ node_of self.now client.0) }
    {
        if self.has_node(client) {
            nodes.push(self.first_record(client))?;
        }
        Ok(())
    }

    /// Adds those nodes, by their clients.
    fn add_removed(&self, nodes: &mut Vec<u32>) -> Result<(), AllocError>
        ensures { OnOk result (nodes.new.items ≡ nodes.old.items ++ removed self.now) }
    {
        for client in 0..self.layout.clients() {
            self.add_node(Client(client as u8), nodes)?;
        }
        Ok(())
    }

    /// Adds the nodes of the items, in their order.
    fn add_waiting(&self, nodes: &mut Vec<u32>) -> Result<(), AllocError>
        ensures { OnOk result (nodes.new.items ≡ nodes.old.items ++ waiting self.now) }
    {
        for at in 0..self.content.len() {
            nodes.push(self.item_record(at))?;
        }
        Ok(())
    }

    /// The nodes of the chain, in their order.
    fn chain(&self, alloc: Global) -> Result<Vec<u32>, AllocError>
        ensures { IfOk result (λ nodes. nodes.items ≡ chain self.now) }
    {
        let mut nodes = Vec::new(alloc);
        self.add_removed(&mut nodes)?;
        self.add_waiting(&mut nodes)?;
        Ok(nodes)
    }

    /// Of each node what follows it on the chain, or 0.
    pub(crate) fn links(&self, alloc: Global) -> Result<Vec<u32>, AllocError>
        ensures { IfOk result (λ links. AreLinksOf self.now links.items) }
    {
        let chain = self.chain(alloc)?;
        let links = links_of(alloc, &chain, self.greatest() + 1)?;
        Ok(links)
    }
}

/// Of each of so many nodes what follows it on the chain of these, or 0.
fn links_of(alloc: Global, nodes: &[u32], count: usize) -> Result<Vec<u32>, AllocError>
    requires chain { IsChain (λ n. follower n 0 nodes.now) 0 nodes.now }
    requires within { (n : ℕ) → IsAmong n (0 ∷ nodes.now) → n < count }
    ensures { IfOk result (λ links. (n : ℕ) → n < count → SaysFollower links.items nodes.now n) }
{
    let mut links = vec![in alloc; 0; count]?;
    let mut last = 0usize;
    for node in nodes {
        links[last] = *node;
        last = *node as usize;
    }
    Ok(links)
}
