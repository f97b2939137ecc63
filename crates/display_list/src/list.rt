//! A display list, which some bytes spell.

ghost use Rattle.std.specs.Prelude.{◌≡◌};
ghost use Rattle.display_list.specs.Tokens.{tokens_of};
ghost use Rattle.display_list.specs.Grammar.{IsSpelled};
ghost use Rattle.display_list.specs.Facts.{IsList};
ghost use Rattle.display_list.specs.Trees.{trees_of, told};

use crate::{ChainDef, ClipDef, Item, Node};
use std::marker::Model;

/// A display list that some bytes spell.
#[derive(Debug, Drop)]
pub struct List {
    nodes: Vec<Node>,
    clips: Vec<ClipDef>,
    chains: Vec<ChainDef>,
    items: Vec<Item>,
}

impl Model for List {
    ghost use Rattle.display_list.specs.ListModel.{ListModel};
    ghost use Rattle.display_list.specs.Grammar.{IsSpelled};

    ghost Value = { ListModel };

    ghost use Rattle.display_list.specs.Tokens.{tokens_of};

    ghost view = { λ l. record { nodes = l.nodes.items; clips = l.clips.items; chains = l.chains.items; items = tokens_of l.items.items } };

    ghost invariant = { λ l. IsSpelled (record { nodes = l.nodes.items; clips = l.clips.items; chains = l.chains.items; items = tokens_of l.items.items }) };
}

impl List {
    pub(crate) fn new(
        nodes: Vec<Node>,
        clips: Vec<ClipDef>,
        chains: Vec<ChainDef>,
        items: Vec<Item>,
    ) -> List
        requires { IsSpelled (record { nodes = nodes.items; clips = clips.items; chains = chains.items; items = tokens_of items.items }) }
        ensures { result ≡ record { nodes = nodes.items; clips = clips.items; chains = chains.items; items = tokens_of items.items } }
    {
        List {
            nodes,
            clips,
            chains,
            items,
        }
    }

    /// The nodes from number 1 on; 0 is the root.
    pub fn nodes(&self) -> &[Node]
        ensures value { result.now ≡ self.now.nodes }
        ensures spelled { IsSpelled self.now }
        ensures list { IsList self.now }
    {
        self.nodes.as_slice()
    }

    /// The clips from number 0 on.
    pub fn clips(&self) -> &[ClipDef]
        ensures value { result.now ≡ self.now.clips }
        ensures spelled { IsSpelled self.now }
        ensures list { IsList self.now }
    {
        self.clips.as_slice()
    }

    /// The chains from number 0 on.
    pub fn chains(&self) -> &[ChainDef]
        ensures value { result.now ≡ self.now.chains }
        ensures spelled { IsSpelled self.now }
        ensures list { IsList self.now }
    {
        self.chains.as_slice()
    }

    /// The items, back to front.
    pub fn items(&self) -> &[Item]
        ensures value { tokens_of result.now ≡ self.now.items }
        ensures trees { told self.now.items ≡ trees_of result.now }
        ensures spelled { IsSpelled self.now }
        ensures list { IsList self.now }
    {
        self.items.as_slice()
    }
}
