ghost use Rattle.std.specs.Prelude.{◌≡◌, ◌&&◌, nat_le, Some, IfOk};
ghost use Rattle.std.specs.List.Sorted.{IsNonDecreasingBy};
ghost use Rattle.gaz_register.specs.Lists.{place};
ghost use Rattle.gaz_register.specs.Texts.{block_text};

use std::alloc::AllocError;
use std::fmt;
use std::marker::Model;

/// The numbers of one kind from a first to a last, both included.
#[derive(Clone, Copy, PartialEq, Eq)]
pub struct Block {
    first: u64,
    last: u64,
}

impl Model for Block {
    ghost use Rattle.std.specs.Prelude.{ℕ};

    ghost Value = { ℕ × ℕ };

    ghost view = { λ b. (b.first, b.last) };

    ghost inverse = { λ p. record { first = p.0; last = p.1 } };
}

impl Block {
    pub(crate) fn new(first: u64, last: u64) -> Self
        ensures { result ≡ (first, last) }
    {
        Block { first, last }
    }

    /// The lowest number of the block.
    pub fn first(self) -> u64
        ensures { result ≡ self.0 }
    {
        self.first
    }

    /// The highest number of the block.
    pub fn last(self) -> u64
        ensures { result ≡ self.1 }
    {
        self.last
    }

    /// Whether the number is in the block.
    pub fn holds(self, number: u64) -> bool
        ensures { result ≡ nat_le self.0 number && nat_le number self.1 }
    {
        let Block { first, last } = self;
        first <= number && number <= last
    }
}

/// `first-last`, in decimal digits.
impl fmt::Display for Block {
    ghost output = { λ b. Some (block_text b) };

    fn fmt<W: fmt::Write>(&self, f: &mut fmt::Formatter<W>) -> fmt::Result {
        let Block { first, last } = *self;
        write!(f, "{first}-{last}")
    }
}

/// Puts a block behind those whose first number isn't higher.
pub(crate) fn put_block(blocks: &mut Vec<Block>, block: Block) -> Result<(), AllocError>
    requires { IsNonDecreasingBy (λ b. b.0) blocks.old.items }
    ensures placed { IfOk result (λ _. blocks.new.items ≡ place (λ b. b.0) block blocks.old.items) }
    ensures rises { IfOk result (λ _. IsNonDecreasingBy (λ b. b.0) blocks.new.items) }
{
    let first = block.first();
    let at = blocks.partition_point(|other| other.first() <= first);
    blocks.insert(at, block)?;
    Ok(())
}
