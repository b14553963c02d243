//! Numbers by node in pages, each of which is filled when it is first written to.
ghost use Rattle.std.specs.Prelude.{◌≡◌, ◌≢◌, ◌<◌, ◌≤◌, ◌+◌, ◌*◌, ◌/◌, ◌%◌, ◌++◌, ◌^◌, ℕ, length, replicate, slice_index, vec_len, vec_capacity, IfOk};
ghost use Rattle.search_queue.specs.Pages.{number_in, IsPaged};

use gh_base::NoMemory;
use std::alloc::Global;

/// How many numbers a page has.
pub const PAGE: u32 = 1024;

/// Pages of 1024 numbers, one after another, and for each block of 1024 nodes the page that it has.
/// Page 0 is that of all blocks that nothing was written to, and stays 0.
#[derive(Drop)]
pub struct Pages {
    starts: Vec<u32>,
    words: Vec<u32>,
    count: u32,
}

impl Pages {
    /// Pages for so many blocks, 0 everywhere. It takes all room, and touches that of page 0.
    pub fn new(alloc: Global, blocks: u32) -> Result<Pages, NoMemory>
        requires { blocks < 2 ^ 31 }
        ensures paged { IfOk result (λ pages. IsPaged pages) }
        ensures blocks { IfOk result (λ pages. length pages.starts.items ≡ blocks) }
        ensures zero { IfOk result (λ pages. (node : ℕ) → node / 1024 < blocks → number_in pages node ≡ 0) }
    {
        let starts = vec![in alloc; 0; blocks as usize]?;
        let mut words = Vec::with_capacity(alloc, 1024 * (blocks as usize + 1))?;
        add_page(&mut words);
        Ok(Pages {
            starts,
            words,
            count: 0,
        })
    }

    /// The number of a node.
    pub fn number(&self, node: u32) -> u32
        requires paged { IsPaged self.now }
        requires node { node / 1024 < length self.now.starts.items }
        ensures { result ≡ number_in self.now node }
    {
        self.words[place(self.starts[block(node)], node)]
    }

    /// Writes the number of a node.
    pub fn write(&mut self, node: u32, number: u32)
        requires paged { IsPaged self.old }
        requires node { node / 1024 < length self.old.starts.items }
        ensures paged { IsPaged self.new }
        ensures blocks { length self.new.starts.items ≡ length self.old.starts.items }
        ensures written { number_in self.new node ≡ number }
        ensures others { (other : ℕ) → other / 1024 < length self.old.starts.items → other ≢ node → number_in self.new other ≡ number_in self.old other }
    {
        let block = block(node);
        self.touch(block);
        self.words[place(self.starts[block], node)] = number;
    }

    /// Gives a block its own page, where it has none.
    fn touch(&mut self, block: usize)
        requires paged { IsPaged self.old }
        requires block { block < length self.old.starts.items }
        ensures paged { IsPaged self.new }
        ensures blocks { length self.new.starts.items ≡ length self.old.starts.items }
        ensures touched { slice_index self.new.starts.items block ≢ 0 }
        ensures same { (node : ℕ) → node / 1024 < length self.old.starts.items → number_in self.new node ≡ number_in self.old node }
    {
        if self.starts[block] != 0 {
            return;
        }
        add_page(&mut self.words);
        self.count += 1;
        self.starts[block] = self.count;
    }
}

/// The block of a node.
fn block(node: u32) -> usize
    ensures { result ≡ node / 1024 }
{
    (node / PAGE) as usize
}

/// Where the number of a node stands, on its block's page.
fn place(start: u32, node: u32) -> usize
    ensures { result ≡ 1024 * start + node % 1024 }
{
    1024 * start as usize + (node % PAGE) as usize
}

/// A page of 0, in room that was taken before.
fn add_page(words: &mut Vec<u32>)
    requires { vec_len words.old + 1024 ≤ vec_capacity words.old }
    ensures items { words.new.items ≡ words.old.items ++ replicate 1024 0 }
    ensures capacity { vec_capacity words.new ≡ vec_capacity words.old }
{
    for _ in 0..PAGE {
        words.push_reserved(0);
    }
}
