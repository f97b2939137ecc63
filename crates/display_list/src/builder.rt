//! A list that grows part by part.

ghost use Rattle.std.specs.Prelude.{◌≡◌, ◌<◌, ◌≤◌, ◌+◌, ◌-◌, ◌++◌, ◌∷◌, [], length, IfOk, OnOk, slice_index, Option};
ghost use Rattle.std.specs.List.{list_any};
ghost use Rattle.field_forms.specs.Facts.{IsDefined};
ghost use Rattle.display_list.specs.Levels.{has_scroll, parent_of, inherited};
ghost use Rattle.display_list.specs.PartialList.{PartialList, start, after, takes_nodes, takes_clips, takes_chains, list_of};
ghost use Rattle.display_list.specs.Following.{CanFollow, NodeFollows, ChainFollows, ItemFollows};
ghost use Rattle.display_list.specs.Grammar.{IsSpelled};
ghost use Rattle.display_list.specs.Tokens.{item_tokens};
ghost use Rattle.display_list.specs.Scrolls.{HasScrollsOf};

use crate::token::{Part, Push, Section, Token};
use crate::{ChainDef, ClipDef, Item, List, Node};
use std::alloc::{AllocError, Global};
use std::collections::BTreeSet;
use std::marker::Model;
use std::mem;

/// A context that is open, and the items before it.
#[derive(Debug, Drop)]
pub struct Open {
    push: Push,
    before: Vec<Item>,
}

/// A list as far as it was read.
#[derive(Debug, Drop)]
pub struct Builder {
    section: Section,
    nodes: Vec<Node>,
    scrolls: BTreeSet<u16>,
    levels: Vec<u8>,
    clips: Vec<ClipDef>,
    chains: Vec<ChainDef>,
    totals: Vec<u8>,
    contexts: Vec<Open>,
    items: Vec<Item>,
}

impl Model for Builder {
    ghost use Rattle.std.specs.Prelude.{◌++◌, length};
    ghost use Rattle.display_list.specs.PartialList.{PartialList};

    ghost Value = { PartialList };

    ghost use Rattle.display_list.specs.Tokens.{open_tokens, tokens_of};
    ghost use Rattle.display_list.specs.Scrolls.{HasScrollsOf};

    ghost view = { λ b. record { section = b.section; nodes = b.nodes.items; levels = b.levels.items; clips = b.clips.items; chains = b.chains.items; totals = b.totals.items; items = open_tokens b.contexts.items ++ tokens_of b.items.items; depth = length b.contexts.items } };

    ghost invariant = { λ b. HasScrollsOf b.nodes.items b.scrolls };
}

impl Builder {
    /// Before the first part.
    #[tactic(auto, unfolding(crate::specs::Tokens::open_tokens, crate::specs::Tokens::tokens_of))]
    pub fn new(alloc: Global) -> Result<Builder, AllocError>
        ensures { IfOk result (λ b. b ≡ start) }
    {
        let mut levels = Vec::new(alloc);
        levels.push(0)?;
        Ok(Builder {
            section: Section::Nodes,
            nodes: Vec::new(alloc),
            scrolls: BTreeSet::new(alloc),
            levels,
            clips: Vec::new(alloc),
            chains: Vec::new(alloc),
            totals: Vec::new(alloc),
            contexts: Vec::new(alloc),
            items: Vec::new(alloc),
        })
    }

    /// Whether a node may come.
    pub fn takes_nodes(&self) -> bool
        ensures { result ≡ takes_nodes self.now.section }
    {
        matches!(self.section, Section::Nodes)
    }

    /// Whether a clip may come.
    pub fn takes_clips(&self) -> bool
        ensures { result ≡ takes_clips self.now.section }
    {
        matches!(self.section, Section::Nodes | Section::Clips)
    }

    /// Whether a chain may come.
    pub fn takes_chains(&self) -> bool
        ensures { result ≡ takes_chains self.now.section }
    {
        !matches!(self.section, Section::Items)
    }

    /// The number of nodes, without the root.
    pub fn nodes(&self) -> usize
        ensures { result ≡ length self.now.nodes }
    {
        self.nodes.len()
    }

    /// The number of nodes that may be named: the root and those that are defined.
    pub fn named_nodes(&self) -> usize
        ensures { result ≡ length self.now.levels }
    {
        self.levels.len()
    }

    /// The number of clips.
    pub fn clips(&self) -> usize
        ensures { result ≡ length self.now.clips }
    {
        self.clips.len()
    }

    /// The number of chains.
    pub fn chains(&self) -> usize
        ensures { result ≡ length self.now.chains }
    {
        self.chains.len()
    }

    /// The number of chains whose clips are counted: all.
    pub fn totals(&self) -> usize
        ensures { result ≡ length self.now.totals }
    {
        self.totals.len()
    }

    /// The number of contexts that are open.
    pub fn depth(&self) -> usize
        ensures { result ≡ self.now.depth }
    {
        self.contexts.len()
    }

    /// The level of a node: 0 for the root.
    pub fn level(&self, node: u16) -> u8
        requires { node < length self.now.levels }
        ensures { result ≡ slice_index self.now.levels node }
    {
        self.levels[node as usize]
    }

    /// Whether a node is scrolled by this number.
    pub fn has_scroll(&self, sid: u16) -> bool
        ensures { result ≡ list_any (has_scroll sid) self.now.nodes }
    {
        self.scrolls.contains(&sid)
    }

    /// The clips of a parent chain, with its parents'.
    pub fn inherited(&self, chain: Option<u16>) -> u8
        requires { IsDefined (length self.now.totals) chain }
        ensures { result ≡ inherited self.now.totals chain }
    {
        match chain {
            None => 0,
            Some(n) => self.totals[n as usize],
        }
    }

    fn add_node(&mut self, node: Node) -> Result<(), AllocError>
        requires { NodeFollows self.old node }
        ensures { OnOk result (self.new ≡ after self.old (Part.Node node)) }
    {
        let level = self.levels[node.parent() as usize] + 1;
        self.levels.push(level)?;
        push_node(&mut self.nodes, &mut self.scrolls, node)
    }

    fn add_clip(&mut self, clip: ClipDef) -> Result<(), AllocError>
        ensures { OnOk result (self.new ≡ after self.old (Part.Clip clip)) }
    {
        self.clips.push(clip)?;
        self.section = Section::Clips;
        Ok(())
    }

    fn add_chain(&mut self, chain: ChainDef) -> Result<(), AllocError>
        requires { ChainFollows self.old chain }
        ensures { OnOk result (self.new ≡ after self.old (Part.Chain chain)) }
    {
        let total = self.inherited(chain.parent) + chain.clips.len() as u8;
        self.totals.push(total)?;
        self.chains.push(chain)?;
        self.section = Section::Chains;
        Ok(())
    }

    fn push_context(&mut self, alloc: Global, push: Push) -> Result<(), AllocError>
        ensures { OnOk result (self.new ≡ after self.old (Part.Item (Token.Push push))) }
    {
        let before = mem::replace(&mut self.items, Vec::new(alloc));
        self.contexts.push(Open { push, before })?;
        self.section = Section::Items;
        Ok(())
    }

    fn pop_context(&mut self) -> Result<(), AllocError>
        requires { 0 < self.old.depth }
        ensures { OnOk result (self.new ≡ after self.old (Part.Item Token.Pop)) }
    {
        let Some(Open { push, before }) = self.contexts.pop() else {
            unreachable!()
        };
        let mut children = mem::replace(&mut self.items, before);
        children.shrink_to_fit();
        make_room(&mut self.items)?;
        self.items.push(Item::Context {
            node: push.node,
            chain: push.chain,
            opacity: push.opacity,
            prop: push.prop,
            mode: push.mode,
            isolate: push.isolate,
            children,
        })?;
        self.section = Section::Items;
        Ok(())
    }

    #[inline(always)]
    fn add_item(&mut self, item: Item) -> Result<(), AllocError>
        ensures items { OnOk result (self.new ≡ record self.old { section = Section.Items; items = self.old.items ++ item_tokens item }) }
    {
        make_room(&mut self.items)?;
        self.items.push(item)?;
        self.section = Section::Items;
        Ok(())
    }

    #[inline(always)]
    fn add_token(&mut self, alloc: Global, token: Token) -> Result<(), AllocError>
        requires { ItemFollows 0 self.old token }
        ensures { OnOk result (self.new ≡ after self.old (Part.Item token)) }
    {
        match token {
            Token::Solid { spot, colour } => self.add_item(Item::Solid { spot, colour }),
            Token::Image { spot, key, u, v } => self.add_item(Item::Image { spot, key, u, v }),
            Token::Border {
                spot,
                widths,
                top,
                right,
                bottom,
                left,
                radii,
            } => self.add_item(Item::Border {
                spot,
                widths,
                top,
                right,
                bottom,
                left,
                radii,
            }),
            Token::Text {
                spot,
                font,
                colour,
                glyphs,
            } => self.add_item(Item::Text {
                spot,
                font,
                colour,
                glyphs,
            }),
            Token::Push(push) => self.push_context(alloc, push),
            Token::Pop => self.pop_context(),
            Token::Iframe { spot, pipeline } => self.add_item(Item::Iframe { spot, pipeline }),
            Token::HitArea { spot, tag } => self.add_item(Item::HitArea { spot, tag }),
        }
    }

    /// Takes the next part.
    #[inline(always)]
    pub fn add(&mut self, alloc: Global, part: Part) -> Result<(), AllocError>
        requires { CanFollow 0 self.old part }
        ensures { OnOk result (self.new ≡ after self.old part) }
    {
        match part {
            Part::Node(node) => self.add_node(node),
            Part::Clip(clip) => self.add_clip(clip),
            Part::Chain(chain) => self.add_chain(chain),
            Part::Item(token) => self.add_token(alloc, token),
        }
    }

    /// The list, once no context is open.
    pub fn finish(self) -> List
        requires closed { self.depth ≡ 0 }
        requires spelled { IsSpelled (list_of self) }
        ensures { result ≡ list_of self }
    {
        let Builder {
            section: _,
            nodes,
            scrolls: _,
            levels: _,
            clips,
            chains,
            totals: _,
            contexts: _,
            items,
        } = self;
        List::new(nodes, clips, chains, items)
    }
}

/// Room for one item where there is none yet: most contexts have few items.
#[inline(always)]
fn make_room(items: &mut Vec<Item>) -> Result<(), AllocError>
    ensures { items.new.items ≡ items.old.items }
{
    if items.is_empty() {
        items.reserve_exact(1)?;
    }
    Ok(())
}

/// Takes one node more, and its scroll number. Without memory both stay as they are.
fn push_node(
    nodes: &mut Vec<Node>,
    scrolls: &mut BTreeSet<u16>,
    node: Node,
) -> Result<(), AllocError>
    requires { HasScrollsOf nodes.old.items scrolls.old }
    ensures ok { OnOk result (nodes.new.items ≡ nodes.old.items ++ node ∷ []) }
    ensures scrolls { HasScrollsOf nodes.new.items scrolls.new }
{
    nodes.push(node)?;
    if let Node::Scroll { sid, .. } = node {
        if scrolls.insert(sid).is_err() {
            nodes.pop();
            return Err(AllocError);
        }
    }
    Ok(())
}
