//! Open maps and lists.

ghost use Rattle.std.specs.Prelude.{◌≡◌, ℕ, [], true, Option, Some, None, IfOk, ◌<◌, map, length};
ghost use Rattle.std.specs.Prelude.{option_map};
ghost use Rattle.yaml_terms.specs.Tree.{Tree};
ghost use Rattle.yaml_terms.specs.Mark as marks;
ghost use Rattle.yaml_terms.specs.Fault.{column, same_column};
ghost use Rattle.yaml_terms.specs.Profile.{is_next, has_room as has_room_def, with_child};
ghost use Rattle.yaml_terms.specs.Profile.{collection};
ghost use Rattle.yaml_terms.specs.Profile.{is_deeper as is_deeper_def, no_text as no_text_def};
ghost use Rattle.yaml_terms.specs.Profile.{or_no_text as or_no_text_def};
ghost use Rattle.yaml_terms.specs.OpenNodes.{node_so_far};
ghost use Rattle.yaml_terms.specs.NodeView.{node_view};
ghost use Rattle.yaml_lines.specs.LineView.{mark_view};
ghost use Rattle.yaml_subset.specs.OpenView.{head_of, done_of, last_view, child, entry_child};
ghost use Rattle.yaml_subset.specs.OpenView.{GoesOn};
ghost use Rattle.yaml_subset.specs.declared.frame.Frame.TheVariants as frames;

use crate::entries::OpenEntries;
use std::alloc::{AllocError, Global};
use yaml_lines::{Block, Mark};
use yaml_terms::{Node, Nodes, Pairs, ScalarText};

/// An open map or list at its column, with its finished children; a map also with the key whose
/// value is open.
#[derive(Drop)]
pub(crate) enum Frame {
    Map(usize, OpenEntries),
    List(usize, Nodes),
}

/// What stands within the innermost frame.
#[derive(Drop)]
pub(crate) enum Last {
    Nothing,
    Inline(Node),
    Block(Block),
}

/// The node that is left out.
fn no_text(alloc: Global) -> Node
    ensures { node_view result ≡ no_text_def }
{
    Node::Scalar {
        text: ScalarText::of(Vec::new(alloc)),
        plain: true,
    }
}

/// The node, or the scalar of no text where none stands.
fn or_no_text(alloc: Global, value: Option<Node>) -> Node
    ensures { node_view result ≡ or_no_text_def (option_map node_view value) }
{
    match value {
        Some(node) => node,
        None => no_text(alloc),
    }
}

impl Last {
    /// The node that it is, if nothing follows.
    pub(crate) fn closed(self, alloc: Global) -> Result<Option<Node>, AllocError>
        ensures { IfOk result (λ v. option_map node_view v ≡ node_so_far (last_view self)) }
    {
        match self {
            Last::Nothing => Ok(None),
            Last::Inline(node) => Ok(Some(node)),
            Last::Block(block) => {
                let text = block.ended(alloc)?;
                Ok(Some(Node::Scalar {
                    text: ScalarText::of(text),
                    plain: false,
                }))
            }
        }
    }
}

impl Frame {
    /// Whether a mark begins its next entry, item or document.
    pub(crate) fn is_followed_by(&self, mark: &Mark) -> bool
        ensures { result ≡ is_next (head_of self.now) (mark_view mark.now) }
    {
        match self {
            Frame::Map(column, _) => match mark {
                Mark::Key(at, _) => *column == *at,
                _ => false,
            },
            Frame::List(column, _) => match mark {
                Mark::Dash(at) => *column == *at,
                _ => false,
            },
        }
    }

    /// Whether a node that isn't a list may begin at a column behind its last mark.
    fn is_deeper(&self, at: usize) -> bool
        ensures { result ≡ is_deeper_def (head_of self.now) at }
    {
        match self {
            Frame::Map(column, _) => *column < at,
            Frame::List(column, _) => *column < at,
        }
    }

    /// Whether a list may begin at a column behind its last mark.
    fn has_room_for_list(&self, at: usize) -> bool
        ensures { result ≡ has_room_def (head_of self.now) (marks.dash at) }
    {
        match self {
            Frame::Map(column, _) => *column <= at,
            Frame::List(column, _) => *column < at,
        }
    }

    /// Whether a node that begins with a mark has room behind its last mark.
    pub(crate) fn has_room(&self, mark: &Mark) -> bool
        ensures { result ≡ has_room_def (head_of self.now) (mark_view mark.now) }
    {
        match mark {
            Mark::Start => false,
            Mark::Dash(at) => self.has_room_for_list(*at),
            Mark::Key(at, _) => self.is_deeper(*at),
            Mark::Value(at, _) => self.is_deeper(*at),
            Mark::Header(at, _) => self.is_deeper(*at),
        }
    }

    /// Whether its own marks stand at this column, if it is one.
    pub(crate) fn stands_at(&self, at: Option<usize>) -> bool
        ensures { result ≡ same_column (column (head_of self.now)) at }
    {
        match at {
            None => false,
            Some(at) => match self {
                Frame::Map(column, _) => *column == at,
                Frame::List(column, _) => *column == at,
            },
        }
    }

    /// The same map or list at its next mark, with a value behind the last one; nothing where the
    /// mark is a key that it has already.
    pub(crate) fn next(
        self,
        alloc: Global,
        value: Option<Node>,
        mark: Mark,
    ) -> Result<Option<Frame>, AllocError>
        requires { is_next (head_of self) (mark_view mark) ≡ true }
        ensures { IfOk result (λ o. GoesOn self (option_map node_view value) (mark_view mark) o) }
    {
        match self {
            Frame::Map(column, entries) => match mark {
                Mark::Key(_, next) => next_entry(alloc, column, entries, value, next),
                _ => unreachable!(),
            },
            Frame::List(column, items) => {
                drop(mark);
                let items = more_items(alloc, column, items, value)?;
                Ok(Some(Frame::List(column, items)))
            }
        }
    }

    /// The map or list that it is, with a value behind its last mark.
    pub(crate) fn closed(self, alloc: Global, value: Option<Node>) -> Result<Node, AllocError>
        ensures { IfOk result (λ x. node_view x
            ≡ collection (with_child (done_of self) (head_of self) (option_map node_view value))) }
    {
        match self {
            Frame::Map(column, entries) => {
                let pairs = all_entries(alloc, column, entries, value)?;
                Ok(node_of_entries(column, pairs))
            }
            Frame::List(column, items) => {
                let items = more_items(alloc, column, items, value)?;
                Ok(node_of_items(column, items))
            }
        }
    }
}

/// The documents with one more, where it has a node.
#[tactic(auto, using(std::proofs::lemmas::List::map_push))]
pub(crate) fn more_documents(nodes: Nodes, value: Option<Node>) -> Result<Nodes, AllocError>
    ensures { IfOk result (λ v. map (child marks.start) v.items
        ≡ with_child (map (child marks.start) nodes.items) marks.start
        (option_map node_view value)) }
{
    match value {
        None => Ok(nodes),
        Some(node) => {
            let mut nodes = nodes;
            nodes.push(node)?;
            Ok(nodes)
        }
    }
}

/// A map at a column that begins with a key.
pub(crate) fn map_from(alloc: Global, column: usize, key: ScalarText) -> Result<Frame, AllocError>
    ensures head { IfOk result (λ f. head_of f ≡ marks.key column key) }
    ensures done { IfOk result (λ f. done_of f ≡ []) }
{
    match OpenEntries::new(alloc, key) {
        Ok(entries) => Ok(Frame::Map(column, entries)),
        Err(refused) => Err(refused),
    }
}

/// The map at a column with a value behind its open key, and the next key; nothing where it has
/// that key.
fn next_entry(
    alloc: Global,
    column: usize,
    entries: OpenEntries,
    value: Option<Node>,
    key: ScalarText,
) -> Result<Option<Frame>, AllocError>
    ensures { IfOk result (λ o. GoesOn (frames.Map column entries) (option_map node_view value)
        (marks.key column key) o) }
{
    let node = or_no_text(alloc, value);
    match entries.next(alloc, node, key) {
        Ok(Some(entries)) => Ok(Some(Frame::Map(column, entries))),
        Ok(None) => Ok(None),
        Err(refused) => Err(refused),
    }
}

/// All entries of a map at a column, with a value behind its open key.
#[tactic(auto, using(std::proofs::lemmas::List::map_push))]
fn all_entries(
    alloc: Global,
    column: usize,
    entries: OpenEntries,
    value: Option<Node>,
) -> Result<Pairs, AllocError>
    ensures more { IfOk result (λ pairs. map (entry_child column) pairs.items
        ≡ with_child (map (entry_child column) entries.0) (marks.key column entries.1)
        (option_map node_view value)) }
    ensures filled { IfOk result (λ pairs. 0 < length pairs.items) }
{
    let node = or_no_text(alloc, value);
    match entries.ended(node) {
        Ok(pairs) => Ok(pairs),
        Err(refused) => Err(refused),
    }
}

/// The items with one more, of a list at a column.
#[tactic(auto, using(std::proofs::lemmas::List::map_push))]
fn more_items(
    alloc: Global,
    column: usize,
    items: Nodes,
    value: Option<Node>,
) -> Result<Nodes, AllocError>
    ensures { IfOk result (λ v. map (child (marks.dash column)) v.items
        ≡ with_child (map (child (marks.dash column)) items.items) (marks.dash column)
        (option_map node_view value)) }
{
    let node = or_no_text(alloc, value);
    let mut items = items;
    items.push(node)?;
    Ok(items)
}

/// The map with these entries.
fn node_of_entries(column: usize, pairs: Pairs) -> Node
    requires { 0 < length pairs.items }
    ensures { node_view result ≡ collection (map (entry_child column) pairs.items) }
{
    Node::Map(pairs)
}

/// The list of these items.
fn node_of_items(column: usize, items: Nodes) -> Node
    ensures { node_view result ≡ collection (map (child (marks.dash column)) items.items) }
{
    Node::List(items)
}
