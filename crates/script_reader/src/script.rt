//! A script and its parts.

ghost use Rattle.std.proofs.Props.{props};
ghost use Rattle.std.specs.Prelude.{◌≡◌, ◌<◌, nat_le, length, map, slice_get, string_bytes, true, Some};
ghost use Rattle.std.specs.List.{list_all};
ghost use Rattle.script_grammar.specs.WellFormed.{IsProgram};
ghost use Rattle.script_grammar.specs.Nesting.{closing_of};
ghost use Rattle.script_grammar.specs.Tags.{tags_of, size_of, sizes_in, block_of_tag, coroutine_count, scope_count, job_count};
ghost use Rattle.script_reader.specs.Programs.{program_from, declared_of, block_of, spawn_of};
ghost use Rattle.script_reader.specs.Closings.{closing_places};
ghost use Rattle.script_reader.specs.Lines.{block_code, does_open};

use crate::names::Named;
use channel_model::Kind;
use co_base::Tag;
use script_grammar::Instruction;

/// A channel that a script declares.
#[derive(Drop)]
pub struct Channel {
    pub name: String,
    pub kind: Kind,
    pub places: u32,
}

/// A coroutine that a script declares: its name, the names of its Jobs, and its lines.
#[derive(Drop)]
pub struct Coroutine {
    pub name: String,
    /// In the order of the lines that give them.
    pub jobs: Vec<String>,
    pub code: Vec<Instruction>,
}

/// Instances of a coroutine that run from the start: the coroutine's number in the script, and how many they are.
#[derive(Clone, Copy)]
pub struct Spawn {
    pub coroutine: u16,
    /// 1 to 16,000.
    pub count: u16,
}

impl Named for Channel {
    ghost name_of = { λ c. string_bytes c.name };

    fn name(&self) -> &str {
        self.name.as_str()
    }
}

impl Named for Coroutine {
    ghost name_of = { λ c. string_bytes c.name };

    fn name(&self) -> &str {
        self.name.as_str()
    }
}

impl Named for String {
    ghost name_of = { λ s. string_bytes s };

    fn name(&self) -> &str {
        self.as_str()
    }
}

/// A script that was read. Channels, coroutines and spawns are numbered from 0, each in the order of their lines.
#[derive(Drop)]
pub struct Script {
    /// 1 or 2.
    pub(crate) version: u8,
    pub(crate) channels: Vec<Channel>,
    pub(crate) coroutines: Vec<Coroutine>,
    pub(crate) spawns: Vec<Spawn>,
    /// How many tags an instance of each block takes.
    pub(crate) sizes: Vec<u16>,
    /// The block of each tag.
    pub(crate) tags: Vec<u16>,
    /// Of each block and each of its lines, the line that closes what it opens.
    pub(crate) closings: Vec<Vec<u32>>,
    /// How many scopes may be entered in all.
    pub(crate) scopes: u16,
    pub ghost well_formed: { IsProgram (program_from version channels.items coroutines.items spawns.items) } by { Prim.hlevel props },
    pub ghost sized: { sizes.items ≡ sizes_in (map block_of coroutines.items) } by { Prim.hlevel props },
    pub ghost tagged: { tags.items ≡ tags_of (program_from version channels.items coroutines.items spawns.items) } by { Prim.hlevel props },
    pub ghost closed: { map (λ places. places.items) closings.items
        ≡ map (λ c. closing_places c.code.items) coroutines.items } by { Prim.hlevel props },
    pub ghost short: { list_all (λ c. nat_le (length c.code.items) 1048577) coroutines.items ≡ true } by { Prim.hlevel props },
    pub ghost counted: { scopes
        ≡ scope_count (program_from version channels.items coroutines.items spawns.items) } by { Prim.hlevel props },
}

impl Script {
    ghost use Rattle.script_reader.specs.Scripts.{program_of};

    /// The version of the language that the script is written in: 1 or 2.
    pub fn version(&self) -> u8
        ensures { result ≡ (program_of self.now).version }
    {
        self.version
    }

    /// The channels, in the order of their lines. A channel's id is its place here.
    pub fn channels(&self) -> &[Channel]
        ensures { map declared_of result.now ≡ (program_of self.now).channels }
    {
        self.channels.as_slice()
    }

    /// The coroutines, in the order of their lines.
    pub fn blocks(&self) -> &[Coroutine]
        ensures blocks { map block_of result.now ≡ (program_of self.now).blocks }
        ensures short { list_all (λ c. nat_le (length c.code.items) 1048577) result.now ≡ true }
    {
        self.coroutines.as_slice()
    }

    /// The instances that run from the start beside main, in the order of their lines. The first has the tag 1.
    pub fn spawns(&self) -> &[Spawn]
        ensures { map spawn_of result.now ≡ (program_of self.now).spawns }
    {
        self.spawns.as_slice()
    }

    /// How many coroutines may run: main, and each instance that is spawned or launched. Their tags are the numbers below
    /// it.
    pub fn coroutines(&self) -> u16
        ensures { result ≡ coroutine_count (program_of self.now) }
    {
        self.tags.len() as u16
    }

    /// How many scopes may be entered.
    pub fn scopes(&self) -> u16
        ensures { result ≡ scope_count (program_of self.now) }
    {
        self.scopes
    }

    /// How many Jobs there may be: a Job for each coroutine that may run and for each scope that may be entered.
    pub fn jobs(&self) -> u16
        ensures { result ≡ job_count (program_of self.now) }
    {
        self.coroutines() + self.scopes()
    }

    /// The coroutine, by its place among the blocks, whose lines the tag runs.
    pub fn coroutine_of(&self, tag: Tag) -> u16
        requires { tag < coroutine_count (program_of self.now) }
        ensures block { block_of_tag (program_of self.now) tag ≡ Some result }
        ensures declared { result < length (program_of self.now).blocks }
    {
        self.tags[tag as usize]
    }

    /// How many tags an instance of a block takes: its own, and those of all that it launches.
    pub fn size_of(&self, block: u16) -> u16
        requires { block < length (program_of self.now).blocks }
        ensures { result ≡ size_of (program_of self.now) block }
    {
        self.sizes[block as usize]
    }

    /// The place of the `end` that closes what a line of a block opens: a repeat, an each, a scope or a select.
    pub fn closing(&self, block: u16, line: u32) -> u32
        requires { does_open (slice_get (block_code (program_of self.now) block) line) ≡ true }
        ensures { closing_of (block_code (program_of self.now) block) line ≡ Some result }
    {
        self.closings[block as usize][line as usize]
    }
}
