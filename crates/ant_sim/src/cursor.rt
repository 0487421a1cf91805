//! The place in the list of an antenna: a block, and which of its packets are left.

ghost use Rattle.std.specs.Prelude.{◌≡◌, ◌≢◌, ◌≤◌, ◌<◌, ◌+◌, ◌*◌, [], true, false, take, IfOk};
ghost use Rattle.corr_model.specs.Plans.{Fits};
ghost use Rattle.ant_sim.specs.Blocks.{GivesFirst, IsSame, block_order, heap_count, rest_of};

use crate::blocks::{heap_count, piece_count, put_block, put_block_packet};
use corr_model::Plan;
use corr_site::NoMemory;
use std::alloc::Global;
use std::marker::Model;

/// A place in the list of an antenna. It takes memory once, when it is made.
#[derive(Drop)]
pub(crate) struct Cursor {
    plan: Plan,
    seed: u64,
    antenna: u32,
    block: u64,
    order: Vec<u32>,
    count: usize,
    at: usize,
    samples: Vec<u8>,
    sky: Vec<u8>,
}

impl Model for Cursor {
    ghost use Rattle.std.specs.Prelude.{take, drop};
    ghost use Rattle.ant_sim.specs.Blocks.{Spot, IsSpot};

    ghost Value = { Spot };

    ghost view = { λ s. record {
      plan = s.plan;
      seed = s.seed;
      antenna = s.antenna;
      block = s.block;
      numbers = drop s.at (take s.count s.order.items);
    } };

    ghost invariant = { λ s.
        IsSpot s.plan s.seed s.antenna s.block s.order.items s.count s.at s.samples.items s.sky.items };
}

impl Cursor {
    /// Before the first packet. `NoMemory` comes only for want of memory.
    pub(crate) fn new(
        alloc: Global,
        plan: &Plan,
        seed: u64,
        antenna: u32,
    ) -> Result<Cursor, NoMemory>
        requires fits { Fits plan.now }
        ensures { IfOk result (λ c. c ≡ record {
          plan = plan.now;
          seed = seed;
          antenna = antenna;
          block = 0;
          numbers = block_order plan.now seed antenna 0;
        }) }
    {
        let bytes = 4 * plan.channels as usize * plan.spectra as usize;
        let pieces = piece_count(plan, bytes);
        let mut order = vec![in alloc; 0; 2 * pieces + 5]?;
        let mut samples = vec![in alloc; 0; bytes]?;
        let mut sky = vec![in alloc; 0; bytes]?;
        let count = put_block(plan, seed, antenna, 0, &mut order, &mut samples, &mut sky);
        Ok(Cursor {
            plan: *plan,
            seed,
            antenna,
            block: 0,
            order,
            count,
            at: 0,
            samples,
            sky,
        })
    }

    /// Goes to the next block.
    pub(crate) fn enter(&mut self)
        requires more { self.old.block ≤ heap_count self.old.plan }
        ensures { self.new ≡ record {
          plan = self.old.plan;
          seed = self.old.seed;
          antenna = self.old.antenna;
          block = self.old.block + 1;
          numbers = block_order self.old.plan self.old.seed self.old.antenna (self.old.block + 1);
        } }
    {
        self.block += 1;
        self.at = 0;
        self.count = put_block(
            &self.plan,
            self.seed,
            self.antenna,
            self.block,
            &mut self.order,
            &mut self.samples,
            &mut self.sky,
        );
    }

    // Whether no packet of the block is left.
    fn is_empty(&self) -> bool
        ensures none { result ≡ true → self.now.numbers ≡ [] }
        ensures some { result ≡ false → self.now.numbers ≢ [] }
    {
        self.at == self.count
    }

    // Whether the block is the last.
    fn is_last(&self) -> bool
        ensures last { result ≡ true → heap_count self.now.plan < self.now.block }
        ensures more { result ≡ false → self.now.block ≤ heap_count self.now.plan }
    {
        heap_count(&self.plan) < self.block
    }

    /// Goes to the next packet, past blocks that have none. False where none is left.
    pub(crate) fn advance(&mut self) -> bool
        ensures same { IsSame self.old self.new }
        ensures some { result ≡ true → self.new.numbers ≢ [] }
        ensures none { result ≡ false → rest_of self.new ≡ [] }
    {
        while self.is_empty() {
            if self.is_last() {
                return false;
            }
            self.enter();
        }
        true
    }

    /// Puts the next packet of the block at the front of the buffer.
    pub(crate) fn give(&mut self, buf: &mut [u8; 65536]) -> usize
        requires some { self.old.numbers ≢ [] }
        ensures within { result ≤ 65535 }
        ensures gives { GivesFirst self.old self.new (take result buf.new) }
    {
        let m = self.order[self.at] as usize;
        self.at += 1;
        put_block_packet(
            &self.plan,
            self.seed,
            self.antenna,
            self.block,
            m,
            &self.samples,
            buf,
        )
    }
}
