// The modes that a script has set.
ghost use Rattle.std.specs.Prelude.{◌≡◌, ◌↔◌, Err, OnOk, OnErr, false};
ghost use Rattle.clip_term.specs.Refusals.{nat_of};
ghost use Rattle.mt_modes.specs.Modes.{Modes, is_default, may_set, mode_in, no_modes, with_setting, is_mode};
ghost use Rattle.clip_term.specs.Filters.{IsMode};
ghost use Rattle.mt_modes.specs.declared.table.ModeFault.TheVariants.{ModeRefused};

use clip_term::Filter;
use fv_io::Text;
use indexmap::IndexMap;
use std::alloc::Global;
use std::marker::Model;

/// Why a mode was not set.
#[derive(Clone, Copy, Debug, PartialEq, Eq)]
pub enum ModeFault {
    /// The mode is not 1, 2 or 3.
    ModeRefused,
    /// Out of memory.
    Memory,
}

/// The modes that a script has set.
#[derive(Drop)]
pub struct ModeTable {
    chosen: IndexMap<u32, u8>,
    default_mode: u8,
}

impl Model for ModeTable {
    ghost use Rattle.mt_modes.specs.Modes.{Modes, AreModes};

    ghost Value = { Modes };

    ghost view = { λ t. record { chosen = t.chosen.entries; default = t.default_mode } };

    ghost invariant = { λ t. AreModes (record { chosen = t.chosen.entries; default = t.default_mode }) };
}

fn is_default(name: &str) -> bool
    ensures { result ≡ is_default name.now }
{
    name.eq_ignore_ascii_case("DEFAULT_MT_MODE")
}

// A setting changes a mode that its filter declares only by force.
fn may_set(force: bool, filter: Filter) -> bool
    ensures { result ≡ may_set force filter }
{
    force || filter.declared().is_none()
}

fn is_mode(mode: i32) -> bool
    ensures { result ≡ is_mode mode }
{
    mode == 1 || mode == 2 || mode == 3
}

impl ModeTable {
    /// A table in which nothing is set. It takes no memory.
    pub fn new(alloc: Global) -> ModeTable
        ensures { result ≡ no_modes }
    {
        ModeTable {
            chosen: IndexMap::new(alloc),
            default_mode: 2,
        }
    }

    /// Sets the mode of the filter of this name, or the default for `DEFAULT_MT_MODE`. Another name changes nothing. An
    /// `Err` leaves the table as it was.
    pub fn set(&mut self, name: &Text, mode: i32, force: bool) -> Result<(), ModeFault>
        ensures ok { OnOk result
            (self.new ≡ with_setting self.old (record { name = name.now; mode = nat_of mode; force = force })) }
        ensures refused { (result ≡ Err ModeRefused) ↔ (is_mode mode ≡ false) }
        ensures err { OnErr result (self.new ≡ self.old) }
    {
        if !is_mode(mode) {
            return Err(ModeFault::ModeRefused);
        }
        let mode = mode.unsigned_abs() as u8;
        if is_default(name.as_str()) {
            self.default_mode = mode;
            return Ok(());
        }
        let Some(filter) = Filter::named(name.as_str()) else {
            return Ok(());
        };
        if !may_set(force, filter) {
            return Ok(());
        }
        match self.chosen.insert(filter.number(), mode) {
            Ok(_) => Ok(()),
            Err(_) => Err(ModeFault::Memory),
        }
    }

    /// The mode of a filter that is made now: 1 is MT_NICE_FILTER, 2 is MT_MULTI_INSTANCE, 3 is MT_SERIALIZED.
    pub fn mode_for(&self, filter: Filter) -> u8
        ensures mode { result ≡ mode_in self.now filter }
        ensures range { IsMode result }
    {
        if filter == Filter::Y4MSource {
            return 3;
        }
        match self.chosen.get(&filter.number()) {
            Some(mode) => *mode,
            None => filter.declared().unwrap_or(self.default_mode),
        }
    }
}
