ghost use Rattle.std.specs.Prelude.{◌≡◌, ◌↔◌, IsTrue, None, MatchOption};
ghost use Rattle.ix_net.specs.Name.{IsName};
ghost use Rattle.ix_verilog.specs.Subset.{Names, declared, IsNext, IsTarget, IsOperand, IsRegister};
ghost use Rattle.ix_vform.specs.Roles.{IsRole};

use crate::opened::Opened;
use crate::role::Role;
use ix_bits::{Memory, Name};
use ix_net::Port;
use ix_verilog::{Assign, Source, Stage, Update, name_in};
use std::alloc::Global;
use std::marker::Model;

/// The module that is open, if one is.
#[derive(Drop)]
pub struct Scope {
    pub(crate) module: Option<Opened>,
}

impl Model for Scope {
    ghost use Rattle.std.specs.Prelude.{Option};
    ghost use Rattle.ix_verilog.specs.declared.source.Source.{Source};

    ghost Value = { Option Source };

    ghost view = { λ s. s.module };
}

impl Scope {
    ghost use Rattle.std.specs.Prelude.{◌≡◌, Some, None, OnOk};
    ghost use Rattle.std.specs.Option.{is_some};
    ghost use Rattle.ix_verilog.specs.declared.source.Stage.TheVariants.{Lines, Clocked, Ended};
    ghost use Rattle.ix_verilog.specs.Lines.{port, heading, input, output, wire, register, assign, always, update, done};
    ghost use Rattle.ix_verilog.specs.Subset.{fresh};
    ghost use Rattle.ix_vform.specs.Added.{added, moved};

    /// Between modules.
    pub fn new() -> Scope
        ensures { result ≡ None }
    {
        Scope { module: None }
    }

    /// A module of this name is open from here on.
    pub fn open(&mut self, alloc: Global, name: Name)
        ensures { self.new ≡ Some (fresh name) }
    {
        self.put(Opened::new(alloc, name));
    }

    /// This module is open from here on.
    fn put(&mut self, opened: Opened)
        ensures { self.new ≡ Some opened }
    {
        drop(self.module.replace(opened));
    }

    /// The module that was open, if one was.
    pub fn close(&mut self) -> Option<Source>
        ensures module { result ≡ self.old }
        ensures closed { self.new ≡ None }
    {
        match self.module.take() {
            Some(opened) => Some(opened.into_source()),
            None => None,
        }
    }

    /// Whether a module is open.
    pub fn is_open(&self) -> bool
        ensures { result ≡ is_some self.now }
    {
        self.module.is_some()
    }

    /// Adds a port of the header.
    pub fn add_port(&mut self, name: Name) -> Result<(), Memory>
        ensures { OnOk result (self.new ≡ added self.old (port name)) }
    {
        let Some(opened) = self.module.take() else {
            drop(name);
            return Ok(());
        };
        let Ok(opened) = opened.with_port(name) else {
            return Err(Memory);
        };
        self.put(opened);
        Ok(())
    }

    /// Goes on behind `input clk;`.
    pub fn end_ports(&mut self)
        ensures { self.new ≡ added self.old heading }
    {
        self.go_to(Stage::Lines);
    }

    pub fn add_input(&mut self, declared: Port) -> Result<(), Memory>
        ensures { OnOk result (self.new ≡ added self.old (input declared)) }
    {
        let Some(opened) = self.module.take() else {
            drop(declared);
            return Ok(());
        };
        let Ok(opened) = opened.with_input(declared) else {
            return Err(Memory);
        };
        self.put(opened);
        Ok(())
    }

    pub fn add_output(&mut self, declared: Port) -> Result<(), Memory>
        ensures { OnOk result (self.new ≡ added self.old (output declared)) }
    {
        let Some(opened) = self.module.take() else {
            drop(declared);
            return Ok(());
        };
        let Ok(opened) = opened.with_output(declared) else {
            return Err(Memory);
        };
        self.put(opened);
        Ok(())
    }

    pub fn add_wire(&mut self, declared: Port) -> Result<(), Memory>
        ensures { OnOk result (self.new ≡ added self.old (wire declared)) }
    {
        let Some(opened) = self.module.take() else {
            drop(declared);
            return Ok(());
        };
        let Ok(opened) = opened.with_wire(declared) else {
            return Err(Memory);
        };
        self.put(opened);
        Ok(())
    }

    pub fn add_register(&mut self, declared: Port) -> Result<(), Memory>
        ensures { OnOk result (self.new ≡ added self.old (register declared)) }
    {
        let Some(opened) = self.module.take() else {
            drop(declared);
            return Ok(());
        };
        let Ok(opened) = opened.with_register(declared) else {
            return Err(Memory);
        };
        self.put(opened);
        Ok(())
    }

    pub fn add_assign(&mut self, assigned: Assign) -> Result<(), Memory>
        ensures { OnOk result (self.new ≡ added self.old (assign assigned)) }
    {
        let Some(opened) = self.module.take() else {
            drop(assigned);
            return Ok(());
        };
        let Ok(opened) = opened.with_assign(assigned) else {
            return Err(Memory);
        };
        self.put(opened);
        Ok(())
    }

    /// Goes on within `always`.
    pub fn begin_always(&mut self)
        ensures { self.new ≡ added self.old always }
    {
        self.go_to(Stage::Clocked);
    }

    pub fn add_update(&mut self, updated: Update) -> Result<(), Memory>
        ensures { OnOk result (self.new ≡ added self.old (update updated)) }
    {
        let Some(opened) = self.module.take() else {
            drop(updated);
            return Ok(());
        };
        let Ok(opened) = opened.with_update(updated) else {
            return Err(Memory);
        };
        self.put(opened);
        Ok(())
    }

    /// Goes on behind `always`.
    pub fn end_always(&mut self)
        ensures { self.new ≡ added self.old done }
    {
        self.go_to(Stage::Ended);
    }

    fn go_to(&mut self, stage: Stage)
        ensures { self.new ≡ moved self.old stage }
    {
        if let Some(opened) = self.module.take() {
            self.put(opened.at_stage(stage));
        }
    }
}

/// What a word is first, where it is a name that is declared.
fn first_role(opened: &Opened, word: &[u8]) -> Option<Role>
    ensures { MatchOption result (IsName word.now → Names (declared opened.now) word.now → ⊥) (λ role. IsName word.now × IsRole opened.now word.now role) }
{
    match name_in(word) {
        Some(name) => opened.role_of(name),
        None => None,
    }
}

/// Whether the port that is declared next has this name.
pub fn is_next(source: &Source, word: &[u8]) -> bool
    ensures { IsTrue result ↔ IsNext source.now word.now }
{
    let declared = source.inputs.as_slice().len() + source.outputs.as_slice().len();
    match source.ports.as_slice().get(declared) {
        Some(name) => name.as_str().as_bytes() == word,
        None => false,
    }
}

/// Whether the word is a declared name.
pub fn is_operand(opened: &Opened, word: &[u8]) -> bool
    ensures { IsTrue result ↔ IsOperand opened.now word.now }
{
    match first_role(opened, word) {
        Some(_) => true,
        None => false,
    }
}

/// Whether an `assign` may drive the word.
pub fn is_target(opened: &Opened, word: &[u8]) -> bool
    ensures { IsTrue result ↔ IsTarget opened.now word.now }
{
    match first_role(opened, word) {
        Some(role) => match role {
            Role::Input => false,
            Role::Assigned => true,
            Role::Register => false,
        },
        None => false,
    }
}

/// Whether the word is a register.
pub fn is_register(opened: &Opened, word: &[u8]) -> bool
    ensures { IsTrue result ↔ IsRegister opened.now word.now }
{
    match first_role(opened, word) {
        Some(role) => match role {
            Role::Input => false,
            Role::Assigned => false,
            Role::Register => true,
        },
        None => false,
    }
}
