// Ropes: rows of words by their numbers, and sums that stay below 2^128.
ghost use Rattle.std.specs.Prelude.{◌≡◌, ◌+◌, ◌*◌, IfOk, ◌<◌, ◌≤◌, ◌-◌, ◌%◌, ◌++◌, ◌∷◌, [], ℕ, length, OnOk, OnErr, IsTrue};

use crate::run::GivenUp;
use std::alloc::Global;
use std::marker::Model;

/// A rope, as it is made of earlier ones.
#[derive(Clone, Copy)]
pub enum Node {
    /// One word c x^g.
    Group(u128),
    /// Two ropes by their numbers, the left one first.
    Joined(usize, usize),
    /// A rope by its number, so many times.
    Repeated(usize, u128),
}

/// A rope, and whether each of its groups is known to have three words x or more.
#[derive(Clone, Copy)]
pub struct Piece {
    pub node: Node,
    pub is_long: bool,
}

/// The sum of two numbers.
pub(crate) fn sum(a: u128, b: u128) -> Result<u128, GivenUp>
    ensures { IfOk result (λ n. n ≡ a + b) }
{
    match a.checked_add(b) {
        Some(n) => Ok(n),
        None => Err(GivenUp::TooLarge),
    }
}

/// The product of two numbers.
pub(crate) fn product(a: u128, b: u128) -> Result<u128, GivenUp>
    ensures { IfOk result (λ n. n ≡ a * b) }
{
    match a.checked_mul(b) {
        Some(n) => Ok(n),
        None => Err(GivenUp::TooLarge),
    }
}

/// One turn more.
pub(crate) fn one_more(turns: u64) -> Result<u64, GivenUp>
    ensures { IfOk result (λ n. n ≡ turns + 1) }
{
    match turns.checked_add(1) {
        Some(n) => Ok(n),
        None => Err(GivenUp::TooLong),
    }
}

/// All ropes so far.
#[derive(Drop)]
pub struct Ropes {
    pieces: Vec<Piece>,
}

impl Model for Ropes {
    ghost use Rattle.std.specs.Prelude.{ℕ, List, []};
    ghost use Rattle.kind_named.specs.inside.Tokens.{ropes_of, IsArena};

    ghost Value = { List (List ℕ) };

    ghost view = { λ a. ropes_of [] a.pieces.items };

    ghost invariant = { λ a. IsArena a.pieces.items };
}

/// A rope opened: its one group, or two ropes.
#[derive(Clone, Copy)]
pub enum Opened {
    Group(u128),
    Two(usize, usize),
}

impl Ropes {
    ghost use Rattle.kind_named.specs.inside.Tokens.{AreLong, AreOdd, rope_times, groups_at, node_groups, RopesAdded, IsPiece, OpensTo};

    /// No rope.
    pub fn new(alloc: Global) -> Ropes
        ensures { result ≡ [] }
    {
        Ropes {
            pieces: Vec::new(alloc),
        }
    }

    /// A rope of one group.
    pub fn group(&mut self, g: u128) -> Result<usize, GivenUp>
        requires { g % 2 ≡ 1 }
        ensures old { RopesAdded self.old self.new }
        ensures rope { IfOk result (λ i. (i < length self.new) × (groups_at self.new i ≡ g ∷ [])) }
    {
        self.add(Piece {
            node: Node::Group(g),
            is_long: g >= 3,
        })
    }

    /// Two ropes as one.
    pub fn join(&mut self, a: usize, b: usize) -> Result<usize, GivenUp>
        requires a { a < length self.old }
        requires b { b < length self.old }
        ensures old { RopesAdded self.old self.new }
        ensures rope { IfOk result
            (λ i. (i < length self.new) × (groups_at self.new i ≡ groups_at self.old a ++ groups_at self.old b)) }
    {
        let is_long = self.are_long(a, b);
        self.add(Piece {
            node: Node::Joined(a, b),
            is_long,
        })
    }

    /// A rope so many times.
    pub fn repeat(&mut self, a: usize, count: u128) -> Result<usize, GivenUp>
        requires a { a < length self.old }
        requires some { 1 ≤ count }
        ensures old { RopesAdded self.old self.new }
        ensures rope { IfOk result
            (λ i. (i < length self.new) × (groups_at self.new i ≡ rope_times count (groups_at self.old a))) }
    {
        if count == 1 {
            return Ok(a);
        }
        let is_long = self.is_long(a);
        self.add(Piece {
            node: Node::Repeated(a, count),
            is_long,
        })
    }

    /// Whether each group of a rope is known to have three words x or more.
    pub fn is_long(&self, i: usize) -> bool
        requires { i < length self.now }
        ensures long { IsTrue result → AreLong (groups_at self.now i) }
        ensures odd { AreOdd (groups_at self.now i) }
    {
        self.pieces[i].is_long
    }

    /// A rope's one group, or two ropes that it is made of, of which the first or the last is the smaller.
    pub fn open(&mut self, i: usize, from_front: bool) -> Result<Opened, GivenUp>
        requires { i < length self.old }
        ensures old { RopesAdded self.old self.new }
        ensures opened { IfOk result (OpensTo self.new (groups_at self.old i)) }
    {
        match self.pieces[i].node {
            Node::Group(g) => Ok(Opened::Group(g)),
            Node::Joined(a, b) => Ok(Opened::Two(a, b)),
            Node::Repeated(a, count) => {
                if count < 2 {
                    return Err(GivenUp::NoRule);
                }
                let others = self.repeat(a, count - 1)?;
                Ok(if from_front {
                    Opened::Two(a, others)
                } else {
                    Opened::Two(others, a)
                })
            }
        }
    }

    /// Each group of each rope is odd: so it is by the invariant, and who calls this knows it.
    pub fn are_odd(&self)
        ensures { (i : ℕ) → AreOdd (groups_at self.now i) }
    {
        let _ = &self.pieces;
    }

    // Whether each group of two ropes is known to have three words x or more.
    fn are_long(&self, a: usize, b: usize) -> bool
        requires a { a < length self.now }
        requires b { b < length self.now }
        ensures long { IsTrue result → AreLong (groups_at self.now a) × AreLong (groups_at self.now b) }
        ensures a { AreOdd (groups_at self.now a) }
        ensures b { AreOdd (groups_at self.now b) }
    {
        let first = self.is_long(a);
        let second = self.is_long(b);
        first && second
    }

    // One more rope.
    fn add(&mut self, piece: Piece) -> Result<usize, GivenUp>
        requires { IsPiece self.old piece }
        ensures old { RopesAdded self.old self.new }
        ensures rope { IfOk result
            (λ i. (i < length self.new) × (groups_at self.new i ≡ node_groups self.old piece.node)) }
    {
        let place = self.pieces.len();
        self.pieces.push(piece)?;
        Ok(place)
    }
}
