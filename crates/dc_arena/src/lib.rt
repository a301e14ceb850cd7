//! A block of bytes, with numbers at places.
#![tactic(auto)]

ghost use Rattle.std.specs.Prelude.{◌≡◌, ℕ, ◌+◌, ◌<◌, ◌≤◌, ◌^◌, ◌⊎◌, length, List, replicate, IfOk};
ghost use Rattle.dc_model.specs.Block.{get4, set4, get8, set8, part, stored};

pub use std::alloc::AllocError as NoMemory;
use std::alloc::Global;
use std::marker::Model;

/// A block of fewer than 2^32 bytes, whose size never changes.
#[derive(Drop)]
pub struct Arena {
    bytes: Vec<u8>,
}

impl Model for Arena {
    ghost Value = { List ℕ };

    ghost view = { λ a. a.bytes.items };

    ghost invariant = { λ a. length a.bytes.items < 2 ^ 32 };
}

impl Arena {
    /// `size` zero bytes.
    pub fn new(alloc: Global, size: u32) -> Result<Arena, NoMemory>
        ensures { IfOk result (λ a. a ≡ replicate size 0) }
    {
        Ok(Arena {
            bytes: vec![in alloc; 0; size as usize]?,
        })
    }

    /// A block of these bytes.
    pub fn of(bytes: Vec<u8>) -> Arena
        requires { length bytes.items < 2 ^ 32 }
        ensures { result ≡ bytes.items }
    {
        Arena { bytes }
    }

    /// The number of bytes.
    pub fn size(&self) -> u32
        ensures { result ≡ length self.now }
    {
        self.bytes.len() as u32
    }

    /// The number of four bytes at a place, low byte first.
    #[tactic(auto, unfolding(dc_model::specs::Block::get4))]
    pub fn get4(&self, at: u32) -> u32
        requires { at + 4 ≤ length self.now }
        ensures { result ≡ get4 self.now at }
    {
        let at = at as usize;
        let mut word = [0; 4];
        word.copy_from_slice(&self.bytes[at..at + 4]);
        u32::from_le_bytes(word)
    }

    /// Writes a number of four bytes at a place, low byte first.
    #[tactic(auto, unfolding(dc_model::specs::Block::set4))]
    pub fn set4(&mut self, at: u32, value: u32)
        requires { at + 4 ≤ length self.old }
        ensures bytes { self.new ≡ set4 self.old at value }
        ensures len { length self.new ≡ length self.old }
    {
        self.copy_in(at, &value.to_le_bytes());
    }

    /// The number of eight bytes at a place, high byte first.
    #[tactic(auto, unfolding(dc_model::specs::Block::get8))]
    pub fn get8(&self, at: u32) -> u64
        requires { at + 8 ≤ length self.now }
        ensures { result ≡ get8 self.now at }
    {
        let at = at as usize;
        let mut word = [0; 8];
        word.copy_from_slice(&self.bytes[at..at + 8]);
        u64::from_be_bytes(word)
    }

    /// Writes a number of eight bytes at a place, high byte first.
    #[tactic(auto, unfolding(dc_model::specs::Block::set8))]
    pub fn set8(&mut self, at: u32, value: u64)
        requires { at + 8 ≤ length self.old }
        ensures bytes { self.new ≡ set8 self.old at value }
        ensures len { length self.new ≡ length self.old }
    {
        self.copy_in(at, &value.to_be_bytes());
    }

    /// `len` bytes from a place on.
    pub fn slice(&self, at: u32, len: u32) -> &[u8]
        requires { at + len ≤ length self.now }
        ensures { result.now ≡ part self.now at len }
    {
        let at = at as usize;
        &self.bytes[at..at + len as usize]
    }

    /// Writes bytes from a place on. All other bytes stay.
    pub fn copy_in(&mut self, at: u32, bytes: &[u8])
        requires { at + length bytes.now ≤ length self.old }
        ensures bytes { self.new ≡ stored self.old at bytes.now }
        ensures len { length self.new ≡ length self.old }
    {
        let at = at as usize;
        self.bytes[at..at + bytes.len()].copy_from_slice(bytes);
    }
}

/// What was written is read, and what was not written stays.
pub fn numbers_stay()
    ensures same4 { (b : List ℕ) (at n : ℕ) → at + 4 ≤ length b → n < 2 ^ 32 → get4 (set4 b at n) at ≡ n }
    ensures same8 { (b : List ℕ) (at n : ℕ) → at + 8 ≤ length b → n < 2 ^ 64 → get8 (set8 b at n) at ≡ n }
    ensures same { (b ws : List ℕ) (at : ℕ) → at + length ws ≤ length b → part (stored b at ws) at (length ws) ≡ ws }
    ensures other { (b ws : List ℕ) (at p n : ℕ) → at + length ws ≤ length b → ((p + n ≤ at) ⊎ (at + length ws ≤ p)) → part (stored b at ws) p n ≡ part b p n }
{}
