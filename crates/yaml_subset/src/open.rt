//! The nodes that are open after some marks.

ghost use Rattle.std.specs.Prelude.{◌≡◌, ℕ, cond, [], true, false, ◌+◌, ◌-◌, ◌==◌, ◌<◌, ◌≤◌};
ghost use Rattle.std.specs.Prelude.{Option, Some, None, IfOk, IfErr, OnOk, List, is_none, length};
ghost use Rattle.std.specs.Prelude.{take, drop, vec_len};
ghost use Rattle.std.specs.Prelude.{option_map, map};
ghost use Rattle.yaml_terms.specs.Mark as marks;
ghost use Rattle.yaml_terms.specs.Profile.{max_depth, is_next, has_room as has_room_def};
ghost use Rattle.yaml_terms.specs.Profile.{with_child};
ghost use Rattle.yaml_terms.specs.OpenNodes.{begun_node, node_so_far, open_after};
ghost use Rattle.yaml_terms.specs.OpenNodes.{documents_so_far, nothing, within};
ghost use Rattle.yaml_terms.specs.Fault.{fault_of_mark, column as column_def};
ghost use Rattle.yaml_terms.specs.NodeView.{node_view, nodes_view};
ghost use Rattle.yaml_lines.specs.LineView.{mark_view};
ghost use Rattle.yaml_subset.specs.OpenView.{head_of, done_of, open_of, last_view, stream_of};
ghost use Rattle.yaml_subset.specs.OpenView.{next_place as next_place_def, last_head};
ghost use Rattle.yaml_subset.specs.OpenView.{any_at as any_at_def, is_nothing as is_nothing_def};
ghost use Rattle.yaml_subset.specs.OpenView.{ClosesOne, BeginsAs, child};
ghost use Rattle.yaml_subset.specs.LineErrorView.{Refuses};
ghost use Rattle.yaml_subset.specs.OpenView.{nodes_open};

use crate::frame::{Frame, Last, map_from, more_documents};
use std::alloc::{AllocError, AllocFailed, Global};
use yaml_lines::{Block, Mark};
use yaml_terms::{MAX_DEPTH, Node, Nodes, ProfileFault, is_scalar};

/// Why a mark wasn't taken.
#[derive(Drop)]
pub(crate) enum LineError {
    Fault(ProfileFault),
    NoMemory,
}

impl From<AllocError> for LineError {
    ghost use Rattle.std.specs.Prelude.{◌≡◌};
    ghost use Rattle.yaml_subset.specs.declared.open.LineError.TheVariants.{NoMemory};

    ghost from_gives = { λ _ s. s ≡ NoMemory };

    fn from(_error: AllocError) -> LineError {
        LineError::NoMemory
    }
}

impl<T: Drop> From<AllocFailed<T>> for LineError {
    ghost use Rattle.std.specs.Prelude.{◌≡◌};
    ghost use Rattle.yaml_subset.specs.declared.open.LineError.TheVariants.{NoMemory};

    ghost from_gives = { λ _ s. s ≡ NoMemory };

    fn from(_error: AllocFailed<T>) -> LineError {
        LineError::NoMemory
    }
}

/// The finished documents, the open maps and lists, the outermost first, and what stands in the
/// innermost.
#[derive(Drop)]
pub(crate) struct OpenNodes {
    pub(crate) documents: Nodes,
    pub(crate) frames: Vec<Frame>,
    pub(crate) last: Last,
}

/// The place of the outermost frame whose next entry or item a mark begins, or their number.
fn next_place(frames: &[Frame], mark: &Mark) -> usize
    ensures value { result ≡ next_place_def (mark_view mark.now) frames.now }
    ensures within { result ≤ length frames.now }
{
    for at in 0..frames.len() {
        let frame = &frames[at];
        if frame.is_followed_by(mark) {
            return at;
        }
    }
    frames.len()
}

/// Closes the innermost frame.
fn close_one(
    alloc: Global,
    frames: &mut Vec<Frame>,
    value: Option<Node>,
) -> Result<Node, AllocError>
    requires { 0 < vec_len frames.old }
    ensures fewer { vec_len frames.new + 1 ≡ vec_len frames.old }
    ensures closes { IfOk result (λ node. ClosesOne frames.old.items (option_map node_view value)
        frames.new.items (Some (node_view node))) }
{
    match frames.pop() {
        None => unreachable!(),
        Some(frame) => frame.closed(alloc, value),
    }
}

/// Closes all frames but the outermost few: the value that they are.
fn close_above(
    alloc: Global,
    frames: &mut Vec<Frame>,
    last: Last,
    keep: usize,
) -> Result<Option<Node>, AllocError>
    requires { keep ≤ vec_len frames.old }
    ensures kept { OnOk result (frames.new.items ≡ take keep frames.old.items) }
    ensures value { IfOk result (λ v. option_map node_view v
        ≡ node_so_far (open_of (drop keep frames.old.items) (last_view last))) }
{
    let end = frames.len();
    let mut value = last.closed(alloc)?;
    for done in keep..end {
        let node = close_one(alloc, frames, value)?;
        value = Some(node);
    }
    Ok(value)
}

/// Whether nothing stands yet in the innermost map or list.
fn is_nothing(last: &Last) -> bool
    ensures { result ≡ is_nothing_def last.now }
{
    match last {
        Last::Nothing => true,
        _ => false,
    }
}

/// Whether a node that begins with a mark has room behind the last mark of the innermost map or
/// list.
#[tactic(auto, using(crate::proofs::OpenViewLemmas::last_head_at))]
fn has_room(frames: &[Frame], mark: &Mark) -> bool
    ensures { result ≡ has_room_def (last_head marks.start frames.now) (mark_view mark.now) }
{
    if frames.is_empty() {
        !mark.is_start()
    } else {
        let innermost = &frames[frames.len() - 1];
        innermost.has_room(mark)
    }
}

/// Whether an open map or list stands at a column, if it is one.
fn any_at(frames: &[Frame], at: Option<usize>) -> bool
    ensures { result ≡ any_at_def at frames.now }
{
    for index in 0..frames.len() {
        let frame = &frames[index];
        if frame.stands_at(at) {
            return true;
        }
    }
    false
}

/// Whether a node that begins with a mark may begin within the innermost map or list.
fn may_begin(frames: &[Frame], last: &Last, mark: &Mark) -> bool
    ensures { result ≡ cond (is_nothing_def last.now)
        (has_room_def (last_head marks.start frames.now) (mark_view mark.now)) false }
{
    if is_nothing(last) {
        has_room(frames, mark)
    } else {
        false
    }
}

/// The fault of a mark that goes on in no open map or list.
fn fault_of(frames: &[Frame], last: &Last, mark: &Mark) -> ProfileFault
    ensures { result ≡ cond (cond (is_nothing_def last.now)
        (has_room_def (last_head marks.start frames.now)
        (mark_view mark.now)) false) ProfileFault.TooDeep
        (cond (any_at_def
        (column_def (mark_view mark.now)) frames.now) ProfileFault.Colon ProfileFault.Indent) }
{
    if may_begin(frames, last, mark) {
        ProfileFault::TooDeep
    } else if any_at(frames, mark.column()) {
        ProfileFault::Colon
    } else {
        ProfileFault::Indent
    }
}

/// One more open map or list, with nothing in it yet.
fn with_frame(documents: Nodes, frames: Vec<Frame>, frame: Frame) -> Result<OpenNodes, AllocError>
    ensures { IfOk result (λ o. nodes_open o
        ≡ stream_of documents.items frames.items (within (head_of frame) (done_of frame) nothing)) }
{
    let mut frames = frames;
    frames.push(frame)?;
    Ok(OpenNodes {
        documents,
        frames,
        last: Last::Nothing,
    })
}

/// Whether a node that begins with a mark is one level too many within these frames.
#[tactic(auto, using(crate::proofs::OpenViewLemmas::begun_lemmas))]
fn is_too_deep(frames: &[Frame], mark: &Mark) -> bool
    ensures { result ≡ is_none (begun_node (max_depth - length frames.now) (mark_view mark.now)) }
{
    let is_full = frames.len() >= MAX_DEPTH;
    match mark {
        Mark::Start => true,
        Mark::Dash(_) => is_full,
        Mark::Key(_, _) => is_full,
        Mark::Value(_, node) => is_full && !is_scalar(node),
        Mark::Header(_, _) => false,
    }
}

/// A node begins with a mark, within the innermost frame, where nothing stands there.
fn begin(
    alloc: Global,
    documents: Nodes,
    frames: Vec<Frame>,
    mark: Mark,
) -> Result<OpenNodes, LineError>
    ensures ok { IfOk result (λ o. BeginsAs documents.items frames.items
        (begun_node (max_depth - length frames.items) (mark_view mark)) (nodes_open o)) }
    ensures refused { IfErr result (λ s. Refuses s
        (λ w. (begun_node (max_depth - length frames.items) (mark_view mark) ≡ None)
        × (w ≡ ProfileFault.TooDeep))) }
{
    if is_too_deep(&frames, &mark) {
        drop(mark);
        return Err(LineError::Fault(ProfileFault::TooDeep));
    }
    match begin_there(alloc, documents, frames, mark) {
        Ok(nodes) => Ok(nodes),
        Err(_) => Err(LineError::NoMemory),
    }
}

/// The same for a mark whose node isn't too deep.
fn begin_there(
    alloc: Global,
    documents: Nodes,
    frames: Vec<Frame>,
    mark: Mark,
) -> Result<OpenNodes, AllocError>
    requires { is_none (begun_node (max_depth - length frames.items) (mark_view mark)) ≡ false }
    ensures { IfOk result (λ o. BeginsAs documents.items frames.items
        (begun_node (max_depth - length frames.items) (mark_view mark)) (nodes_open o)) }
{
    match mark {
        Mark::Start => unreachable!(),
        Mark::Dash(column) => {
            with_frame(documents, frames, Frame::List(column, Vec::new(alloc)))
        }
        Mark::Key(column, key) => {
            let frame = map_from(alloc, column, key)?;
            with_frame(documents, frames, frame)
        }
        Mark::Value(_, node) => Ok(OpenNodes {
            documents,
            frames,
            last: Last::Inline(node),
        }),
        Mark::Header(_, style) => Ok(OpenNodes {
            documents,
            frames,
            last: Last::Block(Block::new(alloc, style)),
        }),
    }
}

/// A mark begins the next entry or item of the frame at a place, and those behind it are closed.
fn next_frames(
    alloc: Global,
    frames: &mut Vec<Frame>,
    last: Last,
    at: usize,
    mark: Mark,
) -> Result<(), LineError>
    requires place { next_place_def (mark_view mark) frames.old.items ≡ at }
    requires inside { at < vec_len frames.old }
    requires no_start { is_next marks.start (mark_view mark) ≡ false }
    ensures ok { OnOk result ((docs : List Node)
        → open_after (mark_view mark) (stream_of docs frames.old.items (last_view last))
        ≡ Some (stream_of docs frames.new.items nothing)) }
    ensures refused { IfErr result (λ s. Refuses s (λ w. (docs : List Node)
        → (open_after (mark_view mark) (stream_of docs frames.old.items (last_view last)) ≡ None)
        × (fault_of_mark (mark_view mark) (stream_of docs frames.old.items (last_view last))
        ≡ w))) }
{
    let value = close_above(alloc, frames, last, at + 1)?;
    match frames.pop() {
        None => unreachable!(),
        Some(frame) => match frame.next(alloc, value, mark) {
            Ok(Some(frame)) => {
                frames.push(frame)?;
                Ok(())
            }
            Ok(None) => Err(LineError::Fault(ProfileFault::DuplicateKey)),
            Err(_) => Err(LineError::NoMemory),
        },
    }
}

/// A mark begins the next entry or item of the frame at a place.
fn go_on(alloc: Global, nodes: OpenNodes, at: usize, mark: Mark) -> Result<OpenNodes, LineError>
    requires place { next_place_def (mark_view mark) nodes.frames.items ≡ at }
    requires inside { at < vec_len nodes.frames }
    requires no_start { is_next marks.start (mark_view mark) ≡ false }
    ensures ok { IfOk result (λ o. open_after (mark_view mark) (nodes_open nodes)
        ≡ Some (nodes_open o)) }
    ensures refused { IfErr result (λ s. Refuses s
        (λ w. (open_after (mark_view mark) (nodes_open nodes) ≡ None)
        × (fault_of_mark (mark_view mark) (nodes_open nodes) ≡ w))) }
{
    let OpenNodes {
        documents,
        frames,
        last,
    } = nodes;
    let mut frames = frames;
    match next_frames(alloc, &mut frames, last, at, mark) {
        Ok(_) => Ok(OpenNodes {
            documents,
            frames,
            last: Last::Nothing,
        }),
        Err(stop) => Err(stop),
    }
}

/// The documents, if the text ends here.
fn all_documents(alloc: Global, nodes: OpenNodes) -> Result<Nodes, AllocError>
    ensures { IfOk result (λ xs. map (child marks.start) xs.items
        ≡ with_child (map (child marks.start) nodes.documents.items) marks.start
        (node_so_far (open_of nodes.frames.items (last_view nodes.last)))) }
{
    let OpenNodes {
        documents,
        frames,
        last,
    } = nodes;
    let mut frames = frames;
    let value = close_above(alloc, &mut frames, last, 0)?;
    more_documents(documents, value)
}

/// A document ends, and the next one begins.
fn next_document(alloc: Global, nodes: OpenNodes) -> Result<OpenNodes, LineError>
    ensures ok { IfOk result (λ o. open_after marks.start (nodes_open nodes)
        ≡ Some (nodes_open o)) }
    ensures refused { IfErr result (λ s. s ≡ LineError.NoMemory) }
{
    let documents = all_documents(alloc, nodes)?;
    Ok(OpenNodes {
        documents,
        frames: Vec::new(alloc),
        last: Last::Nothing,
    })
}

/// A node begins within the innermost frame, or the mark has no place.
fn begin_or_refuse(alloc: Global, nodes: OpenNodes, mark: Mark) -> Result<OpenNodes, LineError>
    requires place { next_place_def (mark_view mark) nodes.frames.items
        ≡ length nodes.frames.items }
    requires no_start { is_next marks.start (mark_view mark) ≡ false }
    ensures ok { IfOk result (λ o. open_after (mark_view mark) (nodes_open nodes)
        ≡ Some (nodes_open o)) }
    ensures refused { IfErr result (λ s. Refuses s
        (λ w. (open_after (mark_view mark) (nodes_open nodes) ≡ None)
        × (fault_of_mark (mark_view mark) (nodes_open nodes) ≡ w))) }
{
    if may_begin(&nodes.frames, &nodes.last, &mark) {
        begin(alloc, nodes.documents, nodes.frames, mark)
    } else {
        let fault = fault_of(&nodes.frames, &nodes.last, &mark);
        drop(mark);
        drop(nodes);
        Err(LineError::Fault(fault))
    }
}

impl OpenNodes {
    /// No documents yet, and none open.
    pub(crate) fn new(alloc: Global) -> OpenNodes
        ensures { nodes_open result ≡ within marks.start [] nothing }
    {
        OpenNodes {
            documents: Vec::new(alloc),
            frames: Vec::new(alloc),
            last: Last::Nothing,
        }
    }

    /// The open nodes after one more mark.
    pub(crate) fn add(self, alloc: Global, mark: Mark) -> Result<OpenNodes, LineError>
        ensures ok { IfOk result (λ o. open_after (mark_view mark) (nodes_open self)
            ≡ Some (nodes_open o)) }
        ensures refused { IfErr result (λ s. Refuses s
            (λ w. (open_after (mark_view mark) (nodes_open self) ≡ None)
            × (fault_of_mark (mark_view mark) (nodes_open self) ≡ w))) }
    {
        if mark.is_start() {
            drop(mark);
            return next_document(alloc, self);
        }
        let at = next_place(&self.frames, &mark);
        if at < self.frames.len() {
            go_on(alloc, self, at, mark)
        } else {
            begin_or_refuse(alloc, self, mark)
        }
    }

    /// The open nodes after one more line of the block scalar that stands in the innermost.
    pub(crate) fn add_raw(self, line: &[u8]) -> Result<OpenNodes, LineError>
        ensures ok { IfOk result (λ o. open_after (marks.raw line.now) (nodes_open self)
            ≡ Some (nodes_open o)) }
        ensures refused { IfErr result (λ s. Refuses s
            (λ w. (open_after (marks.raw line.now) (nodes_open self) ≡ None)
            × (fault_of_mark (marks.raw line.now) (nodes_open self) ≡ w))) }
    {
        let OpenNodes {
            documents,
            frames,
            last,
        } = self;
        match last {
            Last::Block(block) => {
                let block = block.with_line(line)?;
                Ok(OpenNodes {
                    documents,
                    frames,
                    last: Last::Block(block),
                })
            }
            Last::Nothing => Err(LineError::Fault(ProfileFault::Indent)),
            Last::Inline(_) => Err(LineError::Fault(ProfileFault::Indent)),
        }
    }

    /// The nodes of the documents, if the text ends here.
    pub(crate) fn finished(self, alloc: Global) -> Result<Nodes, AllocError>
        ensures { IfOk result (λ xs. nodes_view xs.items ≡ documents_so_far (nodes_open self)) }
    {
        all_documents(alloc, self)
    }
}
