//! A piece of the order of the terms.
ghost use Rattle.std.specs.Prelude.{◌≡◌, ◌<◌, ◌≤◌, [], ◌∷◌, length, take, drop, IfOk, OnOk, OnErr};
ghost use Rattle.std.specs.List.{insert};
ghost use Rattle.sk_dict.specs.Blocks.{IsBlock};

use crate::room::make_room;
use std::alloc::{AllocError, Global};
use std::marker::Model;

/// How many numbers a block holds at the most.
pub(crate) const FULL: usize = 512;

/// Numbers of terms, at least one. Contracts see it as the list of these.
#[derive(Drop)]
pub(crate) struct Block {
    numbers: Vec<usize>,
}

impl Model for Block {
    ghost use Rattle.std.specs.Prelude.{List, ℕ};
    ghost use Rattle.sk_dict.specs.Blocks.{IsBlock};

    ghost Value = { List ℕ };

    ghost view = { λ b. b.numbers.items };

    ghost invariant = { λ b. IsBlock b.numbers.items };
}

impl Block {
    /// The block of one number.
    pub fn new(alloc: Global, number: usize) -> Result<Block, AllocError>
        ensures { IfOk result (λ b. b ≡ number ∷ []) }
    {
        let mut numbers = Vec::new(alloc);
        numbers.push(number)?;
        Ok(Block { numbers })
    }

    pub fn numbers(&self) -> &[usize]
        ensures value { result.now ≡ self.now }
        ensures sized { IsBlock self.now }
    {
        self.numbers.as_slice()
    }

    /// Puts the number at the offset, and moves those from there on by one.
    pub fn insert(&mut self, offset: usize, number: usize) -> Result<(), AllocError>
        requires within { offset ≤ length self.old }
        requires room { length self.old < FULL }
        ensures ok { OnOk result (self.new ≡ insert self.old offset number) }
        ensures err { OnErr result (self.new ≡ self.old) }
    {
        make_room(&mut self.numbers)?;
        self.numbers.insert(offset, number)?;
        Ok(())
    }

    /// The same numbers, in memory of their own.
    pub fn copy(&self) -> Result<Block, AllocError>
        ensures { IfOk result (λ copy. copy ≡ self.now) }
    {
        let numbers = Vec::from_slice(*self.numbers.allocator(), self.numbers.as_slice())?;
        Ok(Block { numbers })
    }

    /// A copy of the numbers from the offset on.
    pub fn upper(&self, offset: usize) -> Result<Block, AllocError>
        requires { offset < length self.now }
        ensures { IfOk result (λ b. b ≡ drop offset self.now) }
    {
        let numbers = Vec::from_slice(*self.numbers.allocator(), &self.numbers[offset..])?;
        Ok(Block { numbers })
    }

    /// Keeps the first `count` numbers, and gives the room of the others back.
    pub fn truncate(&mut self, count: usize)
        requires { 0 < count }
        ensures { self.new ≡ take count self.old }
    {
        self.numbers.truncate(count);
        self.numbers.shrink_to_fit();
    }
}
