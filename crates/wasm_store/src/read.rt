ghost use Rattle.std.specs.Prelude.{◌≡◌, ℕ, ◌+◌, ◌<◌, ◌≤◌, length, slice_get, Some, IsSome, IsSomeAnd, option_map, option_and_then};
ghost use Rattle.wasm_store.specs.Readers.{top_instance_of, host_top_of, HasHostArgs, HasHostGiven, export_named, first_named_of, HasPages};

use crate::config::{Config, Frame, Outcome};
use crate::store::Extern;
use wasm_values::{List, Text, Val};

impl Config {
    /// What the run has come to.
    pub fn outcome(&self) -> &Outcome
        ensures { result.now ≡ self.now.outcome }
    {
        &self.outcome
    }

    /// How many frames there are.
    pub fn frame_count(&self) -> usize
        ensures { result ≡ length self.now.frames }
    {
        self.frames.len()
    }

    /// The instance of the top frame. `None` comes exactly where there is no frame or the top frame is a host's.
    pub fn top_instance(&self) -> Option<u32>
        ensures { result ≡ top_instance_of self.now.frames }
    {
        match self.frames.as_slice().last() {
            Some(Frame::Code(frame)) => Some(frame.instance),
            _ => None,
        }
    }

    /// The function of the top frame, if it is a host's.
    pub fn host_top(&self) -> Option<u32>
        ensures { result ≡ host_top_of self.now.frames }
    {
        match self.frames.as_slice().last() {
            Some(Frame::Host { func, .. }) => Some(*func),
            _ => None,
        }
    }

    /// The arguments of the host function whose frame is on top.
    pub fn host_args(&self) -> &List<Val>
        requires { IsSome (host_top_of self.now.frames) }
        ensures { HasHostArgs self.now.frames result.now }
    {
        match self.frames.as_slice().last() {
            Some(Frame::Host { args, .. }) => args,
            _ => unreachable!(),
        }
    }

    /// The results of the last function that the host function on top has called, or no values before.
    pub fn host_given(&self) -> &List<Val>
        requires { IsSome (host_top_of self.now.frames) }
        ensures { HasHostGiven self.now.frames result.now }
    {
        match self.frames.as_slice().last() {
            Some(Frame::Host { given, .. }) => given,
            _ => unreachable!(),
        }
    }

    /// The value of the global at an address.
    pub fn global_value(&self, addr: u32) -> Val
        requires { addr < length self.now.store.globals }
        ensures { IsSomeAnd (slice_get self.now.store.globals addr) (λ g. g.value ≡ result) }
    {
        self.store.globals.as_slice()[addr as usize].value
    }

    /// How many pages the memory at an address has.
    pub fn page_count(&self, addr: u32) -> u32
        requires { IsSomeAnd (slice_get self.now.store.memories addr) (λ m. (pages : ℕ) × HasPages m pages) }
        ensures { IsSomeAnd (slice_get self.now.store.memories addr) (λ m. HasPages m result) }
    {
        let memory = &self.store.memories.as_slice()[addr as usize];
        (memory.bytes.len() / 65_536) as u32
    }

    /// A byte of the memory at an address.
    pub fn memory_byte(&self, addr: u32, i: usize) -> u8
        requires { IsSomeAnd (slice_get self.now.store.memories addr) (λ m. i < length m.bytes) }
        ensures { IsSomeAnd (slice_get self.now.store.memories addr) (λ m. slice_get m.bytes i ≡ Some result) }
    {
        let memory = &self.store.memories.as_slice()[addr as usize];
        memory.bytes.as_slice()[i]
    }

    /// The function in an entry of the table at an address, or `None` where the entry is empty.
    pub fn table_entry(&self, addr: u32, i: usize) -> Option<u32>
        requires { IsSomeAnd (slice_get self.now.store.tables addr) (λ t. i < length t.entries) }
        ensures { IsSomeAnd (slice_get self.now.store.tables addr) (λ t. slice_get t.entries i ≡ Some result) }
    {
        let table = &self.store.tables.as_slice()[addr as usize];
        table.entries.as_slice()[i]
    }

    /// What an instance exports under a name: of two exports with this name the first, or `None` where there is none.
    pub fn export_of(&self, instance: u32, name: &Text) -> Option<Extern>
        requires { instance < length self.now.store.instances }
        ensures { IsSomeAnd (slice_get self.now.store.instances instance) (λ i. export_named i name.now ≡ result) }
    {
        let instances = self.store.instances.as_slice();
        first_named(instances[instance as usize].exports.as_slice(), name)
    }
}

// The first of these exports that has this name.
fn first_named(exports: &[(Text, Extern)], name: &Text) -> Option<Extern>
    ensures { result ≡ first_named_of exports.now name.now }
{
    let found = exports.iter().find(|e| e.0 == *name);
    found.map(|e| e.1)
}
