// Reading tokens from the left.
ghost use Rattle.std.specs.Prelude.{◌≡◌, ◌≤◌, ◌<◌, ◌+◌, ◌-◌, [], ◌∷◌, ◌++◌, length, IfOk, OnOk, MatchBool, MatchOption, Some, None, ℕ};
ghost use Rattle.capfilter.specs.Parser.{state_of, frames_of, frame_of, AreParts, IsParser, IsFrameOf, IsFresh, HasRoom, IsThere, Went, next_of, joined, level_of};
ghost use Rattle.capfilter.specs.Nodes.{root, trees};
ghost use Rattle.capfilter.specs.Expr.{Expr, Test};
ghost use Rattle.std.specs.Bool.{OnTrue, OnFalse};
ghost use Rattle.capfilter.specs.Reader.{start, completed, closed, step, at_word, at_operand, at_operator, at_word_of_end, field_of, Operator, Operand, Text_of_end, OpenFrame};

use crate::Memory;
use crate::end_test::{EndTest, Field, end_test_of};
use crate::node::Node;
use crate::prim::{Primitive, Side};
use crate::word::Word;
use std::alloc::Global;

/// What is open: a `not`, a bracket, or a join that waits for its right operand, with the node of the left one.
#[derive(Clone, Copy, Debug)]
pub(crate) enum Frame {
    Not,
    Open,
    And(usize),
    Or(usize),
}

/// What comes next: an operand, one of the words of an end, what stands behind that word, or, behind an operand, a
/// join or a bracket.
#[derive(Clone, Copy, Debug)]
pub(crate) enum Next {
    Operand,
    WordOfEnd(Side),
    TextOfEnd(Side, Field),
    Operator,
}

/// A parser behind some tokens. The last frame is the innermost, and the last node is the operand that is whole.
#[derive(Debug, Drop)]
pub(crate) struct Parser {
    pub(crate) nodes: Vec<Node>,
    pub(crate) frames: Vec<Frame>,
    pub(crate) levels: usize,
    pub(crate) next: Next,
    pub(crate) count: usize,
}

fn join_of(frame: Frame, last: usize) -> Option<Node>
    ensures { result ≡ joined frame last }
{
    match frame {
        Frame::Not => Some(Node::Not(last)),
        Frame::Open => None,
        Frame::And(left) => Some(Node::And(left, last)),
        Frame::Or(left) => Some(Node::Or(left, last)),
    }
}

fn field_named(word: Word) -> Option<Field>
    ensures { result ≡ field_of word }
{
    match word {
        Word::Host => Some(Field::Host),
        Word::Net => Some(Field::Net),
        Word::Port => Some(Field::Port),
        _ => None,
    }
}

/// Takes the innermost frame off, where it is a bracket.
fn pop_bracket(frames: &mut Vec<Frame>, levels: &mut usize, nodes: &[Node]) -> bool
    requires parts { AreParts nodes.now frames.old.items levels.old }
    ensures parts { OnTrue result (AreParts nodes.now frames.new.items levels.new) }
    ensures less { OnTrue result (length frames.new.items < length frames.old.items) }
    ensures bracket { OnTrue result (frames_of nodes.now frames.old.items ≡ OpenFrame ∷ frames_of nodes.now frames.new.items) }
    ensures none { OnFalse result ((e : Expr) → closed (frames_of nodes.now frames.old.items) e ≡ None) }
    ensures same { OnFalse result (frames.new.items ≡ frames.old.items) }
{
    match frames.last().copied() {
        Some(Frame::Open) => {
            let _ = frames.pop();
            *levels = levels.saturating_sub(1);
            true
        }
        _ => false,
    }
}

fn put_node(nodes: &mut Vec<Node>, node: Node) -> Result<(), Memory>
    ensures { OnOk result (nodes.new.items ≡ nodes.old.items ++ node ∷ []) }
{
    nodes.push(node)?;
    Ok(())
}

fn put_frame(frames: &mut Vec<Frame>, frame: Frame) -> Result<(), Memory>
    ensures { OnOk result (frames.new.items ≡ frames.old.items ++ frame ∷ []) }
{
    frames.push(frame)?;
    Ok(())
}

fn levels_behind(levels: usize, frame: Frame) -> usize
    ensures { result ≡ levels - level_of frame }
{
    match frame {
        Frame::Not => levels.saturating_sub(1),
        Frame::Open => levels.saturating_sub(1),
        Frame::And(_) => levels,
        Frame::Or(_) => levels,
    }
}

/// Closes the innermost frame with the last node, where it waits for one.
fn close_frame(
    nodes: &mut Vec<Node>,
    frames: &mut Vec<Frame>,
    levels: &mut usize,
) -> Result<bool, Memory>
    requires some { 0 < length nodes.old.items }
    requires parts { AreParts nodes.old.items frames.old.items levels.old }
    ensures some { OnOk result (0 < length nodes.new.items) }
    ensures parts { OnOk result (AreParts nodes.new.items frames.new.items levels.new) }
    ensures few { OnOk result (length nodes.new.items + length frames.new.items ≡ length nodes.old.items + length frames.old.items) }
    ensures same { OnOk result (completed (frames_of nodes.new.items frames.new.items) (root nodes.new.items)
        ≡ completed (frames_of nodes.old.items frames.old.items) (root nodes.old.items)) }
    ensures went { IfOk result (λ went. MatchBool went (length frames.new.items < length frames.old.items) (IsFresh (frames_of nodes.new.items frames.new.items))) }
{
    let Some(frame) = frames.last().copied() else {
        return Ok(false);
    };
    let Some(node) = join_of(frame, nodes.len() - 1) else {
        return Ok(false);
    };
    let _ = frames.pop();
    *levels = levels_behind(*levels, frame);
    put_node(nodes, node)?;
    Ok(true)
}

/// An operand is whole: it closes all that waits for it.
fn close_frames(
    nodes: &mut Vec<Node>,
    frames: &mut Vec<Frame>,
    levels: &mut usize,
) -> Result<(), Memory>
    requires some { 0 < length nodes.old.items }
    requires parts { AreParts nodes.old.items frames.old.items levels.old }
    ensures some { OnOk result (0 < length nodes.new.items) }
    ensures parts { OnOk result (AreParts nodes.new.items frames.new.items levels.new) }
    ensures few { OnOk result (length nodes.new.items + length frames.new.items ≡ length nodes.old.items + length frames.old.items) }
    ensures state { OnOk result (record { frames = frames_of nodes.new.items frames.new.items; next = Operator (root nodes.new.items) }
        ≡ completed (frames_of nodes.old.items frames.old.items) (root nodes.old.items)) }
{
    'closing: loop {
        if !close_frame(nodes, frames, levels)? {
            return Ok(());
        }
    }
}

impl Parser {
    /// A parser before the first token.
    pub(crate) fn new(alloc: Global) -> Parser
        ensures state { state_of result ≡ start }
        ensures count { result.count ≡ 0 }
        ensures is { IsParser result }
    {
        Parser {
            nodes: Vec::new(alloc),
            frames: Vec::new(alloc),
            levels: 0,
            next: Next::Operand,
            count: 0,
        }
    }

    fn put_operand(&mut self, prim: Primitive) -> Result<(), Memory>
        requires is { IsParser self.old }
        requires room { HasRoom self.old }
        ensures state { OnOk result (state_of self.new ≡ completed (frames_of self.old.nodes.items self.old.frames.items) (Test prim)) }
        ensures is { OnOk result (IsParser self.new) }
        ensures count { self.new.count ≡ self.old.count }
    {
        put_node(&mut self.nodes, Node::Test(prim))?;
        close_frames(&mut self.nodes, &mut self.frames, &mut self.levels)?;
        self.next = Next::Operator;
        Ok(())
    }

    fn open_level(&mut self, frame: Frame) -> Result<(), Memory>
        requires is { IsParser self.old }
        requires room { HasRoom self.old }
        requires level { level_of frame ≡ 1 }
        ensures state { OnOk result (state_of self.new ≡ record { frames = frame_of (trees self.old.nodes.items) frame ∷ frames_of self.old.nodes.items self.old.frames.items; next = Operand }) }
        ensures is { OnOk result (IsParser self.new) }
        ensures count { self.new.count ≡ self.old.count }
    {
        put_frame(&mut self.frames, frame)?;
        self.levels += 1;
        self.next = Next::Operand;
        Ok(())
    }

    fn open_join(&mut self, frame: Frame) -> Result<(), Memory>
        requires is { IsParser self.old }
        requires room { HasRoom self.old }
        requires level { level_of frame ≡ 0 }
        requires within { IsFrameOf (length self.old.nodes.items) frame }
        ensures state { OnOk result (state_of self.new ≡ record { frames = frame_of (trees self.old.nodes.items) frame ∷ frames_of self.old.nodes.items self.old.frames.items; next = Operand }) }
        ensures is { OnOk result (IsParser self.new) }
        ensures count { self.new.count ≡ self.old.count }
    {
        put_frame(&mut self.frames, frame)?;
        self.next = Next::Operand;
        Ok(())
    }

    /// Goes on to what comes next, with the same frames.
    fn expect(&mut self, next: Next)
        requires is { IsParser self.old }
        requires there { IsThere (length self.old.nodes.items) next }
        ensures state { state_of self.new ≡ record { frames = frames_of self.old.nodes.items self.old.frames.items; next = next_of self.old.nodes.items next } }
        ensures is { IsParser self.new }
        ensures count { self.new.count ≡ self.old.count }
    {
        self.next = next;
    }

    /// A word where an operand begins.
    fn take_operand(&mut self, word: Word) -> Result<bool, Memory>
        requires is { IsParser self.old }
        requires room { HasRoom self.old }
        ensures went { IfOk result (λ went. Went went (at_operand (frames_of self.old.nodes.items self.old.frames.items) word) self.new) }
        ensures count { self.new.count ≡ self.old.count }
    {
        match word {
            Word::And => return Ok(false),
            Word::Or => return Ok(false),
            Word::Close => return Ok(false),
            Word::Not => {
                self.open_level(Frame::Not)?;
                Ok(true)
            }
            Word::Open => {
                self.open_level(Frame::Open)?;
                Ok(true)
            }
            Word::Tcp => {
                self.put_operand(Primitive::Tcp)?;
                Ok(true)
            }
            Word::Udp => {
                self.put_operand(Primitive::Udp)?;
                Ok(true)
            }
            Word::Ip => {
                self.put_operand(Primitive::Ip)?;
                Ok(true)
            }
            Word::Ip6 => {
                self.put_operand(Primitive::Ip6)?;
                Ok(true)
            }
            Word::Source => {
                self.expect(Next::WordOfEnd(Side::Source));
                Ok(true)
            }
            Word::Target => {
                self.expect(Next::WordOfEnd(Side::Target));
                Ok(true)
            }
            Word::Host => {
                self.expect(Next::TextOfEnd(Side::Either, Field::Host));
                Ok(true)
            }
            Word::Net => {
                self.expect(Next::TextOfEnd(Side::Either, Field::Net));
                Ok(true)
            }
            Word::Port => {
                self.expect(Next::TextOfEnd(Side::Either, Field::Port));
                Ok(true)
            }
        }
    }

    /// A word behind `src` or `dst`.
    fn take_side(&mut self, side: Side, word: Word) -> bool
        requires is { IsParser self.old }
        ensures went { Went result (at_word_of_end side (frames_of self.old.nodes.items self.old.frames.items) word) self.new }
        ensures count { self.new.count ≡ self.old.count }
    {
        match field_named(word) {
            None => false,
            Some(field) => {
                self.expect(Next::TextOfEnd(side, field));
                true
            }
        }
    }

    /// What stands behind `host`, `net` or `port`.
    fn take_text(&mut self, side: Side, field: Field, token: &[u8]) -> Result<bool, Memory>
        requires is { IsParser self.old }
        requires room { HasRoom self.old }
        ensures went { IfOk result (λ went. Went went (step (frames_of self.old.nodes.items self.old.frames.items) (Text_of_end side field) token.now) self.new) }
        ensures count { self.new.count ≡ self.old.count }
    {
        match end_test_of(field, token) {
            None => Ok(false),
            Some(test) => {
                self.put_operand(Primitive::OfEnd(side, test))?;
                Ok(true)
            }
        }
    }

    /// A closing bracket behind an operand.
    fn take_close(&mut self) -> Result<bool, Memory>
        requires is { IsParser self.old }
        requires some { 0 < length self.old.nodes.items }
        ensures went { IfOk result (λ went. Went went (closed (frames_of self.old.nodes.items self.old.frames.items) (root self.old.nodes.items)) self.new) }
        ensures count { self.new.count ≡ self.old.count }
    {
        if !pop_bracket(&mut self.frames, &mut self.levels, &self.nodes) {
            return Ok(false);
        }
        close_frames(&mut self.nodes, &mut self.frames, &mut self.levels)?;
        self.next = Next::Operator;
        Ok(true)
    }

    /// A word behind an operand.
    fn take_operator(&mut self, word: Word) -> Result<bool, Memory>
        requires is { IsParser self.old }
        requires room { HasRoom self.old }
        requires some { 0 < length self.old.nodes.items }
        ensures went { IfOk result (λ went. Went went (at_operator (root self.old.nodes.items) (frames_of self.old.nodes.items self.old.frames.items) word) self.new) }
        ensures count { self.new.count ≡ self.old.count }
    {
        let last = self.nodes.len() - 1;
        match word {
            Word::And => {
                self.open_join(Frame::And(last))?;
                Ok(true)
            }
            Word::Or => {
                self.open_join(Frame::Or(last))?;
                Ok(true)
            }
            Word::Close => self.take_close(),
            _ => Ok(false),
        }
    }

    /// A word where one may stand.
    fn take_word(&mut self, word: Word) -> Result<bool, Memory>
        requires is { IsParser self.old }
        requires room { HasRoom self.old }
        ensures went { IfOk result (λ went. Went went (at_word (state_of self.old).frames (state_of self.old).next word) self.new) }
        ensures count { self.new.count ≡ self.old.count }
    {
        match self.next {
            Next::Operand => self.take_operand(word),
            Next::WordOfEnd(side) => Ok(self.take_side(side, word)),
            Next::TextOfEnd(_, _) => Ok(false),
            Next::Operator => self.take_operator(word),
        }
    }

    /// Whether the token may stand here; if so the parser goes on.
    pub(crate) fn step(&mut self, token: &[u8]) -> Result<bool, Memory>
        requires is { IsParser self.old }
        requires room { HasRoom self.old }
        ensures went { IfOk result (λ went. Went went (step (state_of self.old).frames (state_of self.old).next token.now) self.new) }
        ensures count { self.new.count ≡ self.old.count }
    {
        if let Next::TextOfEnd(side, field) = self.next {
            return self.take_text(side, field, token);
        }
        match Word::of(token) {
            None => Ok(false),
            Some(word) => self.take_word(word),
        }
    }
}
