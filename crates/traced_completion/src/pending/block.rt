//! A part of the store: waiting ambiguities, one after another.
ghost use Rattle.std.specs.Prelude.{◌≡◌, ◌≤◌, length, take, drop, IfOk, OnOk, OnErr};
ghost use Rattle.std.specs.List.{insert, remove};
ghost use Rattle.ambiguities.specs.declared.waiting.Waiting.{Waiting};

use ambiguities::Waiting;
use std::alloc::AllocError;
use std::marker::Model;

// Waiting ambiguities.
#[derive(Drop)]
pub(super) struct Block {
    items: Vec<Waiting>,
}

impl Model for Block {
    ghost use Rattle.std.specs.Prelude.{List};
    ghost use Rattle.ambiguities.specs.declared.waiting.Waiting.{Waiting};

    ghost Value = { List Waiting };

    ghost view = { λ b. b.items.items };
}

impl Block {
    // These ambiguities.
    pub(super) fn new(items: Vec<Waiting>) -> Block
        ensures { result ≡ items.items }
    {
        Block { items }
    }

    // How many there are.
    pub(super) fn len(&self) -> usize
        ensures { result ≡ length self.now }
    {
        self.items.len()
    }

    // All of them.
    pub(super) fn as_slice(&self) -> &[Waiting]
        ensures { result.now ≡ self.now }
    {
        self.items.as_slice()
    }

    // Inserts one at this place. Where memory is short, the block is unchanged.
    pub(super) fn insert(&mut self, place: usize, waiting: Waiting) -> Result<(), AllocError>
        requires { place ≤ length self.old }
        ensures ok { OnOk result (self.new ≡ insert self.old place waiting) }
        ensures err { OnErr result (self.new ≡ self.old) }
    {
        self.items.insert(place, waiting)?;
        Ok(())
    }

    // Removes the one at this place, if there is one.
    pub(super) fn remove(&mut self, place: usize)
        ensures { self.new ≡ remove self.old place }
    {
        if place < self.items.len() {
            self.items.remove(place);
        }
    }

    // Splits off those from this place on. Where memory is short, the block is unchanged.
    pub(super) fn split_off(&mut self, place: usize) -> Result<Block, AllocError>
        requires { place ≤ length self.old }
        ensures ok { OnOk result (self.new ≡ take place self.old) }
        ensures rest { IfOk result (λ rest. rest ≡ drop place self.old) }
        ensures err { OnErr result (self.new ≡ self.old) }
    {
        Ok(Block {
            items: self.items.split_off(place)?,
        })
    }
}
