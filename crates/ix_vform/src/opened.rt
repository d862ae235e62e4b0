ghost use Rattle.std.specs.Prelude.{◌≡◌, IfOk, OnOk, MatchOption};
ghost use Rattle.ix_verilog.specs.declared.source.Source.{Source as source_type};
ghost use Rattle.ix_verilog.specs.Subset.{Names, declared, fresh, with_line};
ghost use Rattle.ix_verilog.specs.Lines.{port, input, output, wire, register, assign, update};
ghost use Rattle.ix_vform.specs.Roles.{IsRole};
ghost use Rattle.ix_vform.specs.Kept.{IsKept, is_assigned as specified_is_assigned, is_updated as specified_is_updated};

use crate::role::{Role, declare, mark};
use ix_bits::{List, Memory, Name};
use ix_net::Port;
use ix_verilog::{Assign, Source, Stage, Update};
use std::alloc::Global;
use std::collections::{BTreeMap, BTreeSet};
use std::marker::Model;

/// What the names of a module are, and which of them are driven.
#[derive(Drop)]
struct Marks {
    alloc: Global,
    roles: BTreeMap<String, Role>,
    assigned: BTreeSet<String>,
    updated: BTreeSet<String>,
}

/// A module whose lines are read, with what is kept of its names. Contracts see the module.
#[derive(Drop)]
pub struct Opened {
    source: Source,
    marks: Marks,
}

impl Model for Opened {
    ghost use Rattle.ix_verilog.specs.declared.source.Source.{Source};
    ghost use Rattle.ix_vform.specs.Kept.{IsKept};

    ghost Value = { Source };

    ghost view = { λ o. o.source };

    ghost invariant = { λ o. IsKept o.source o.marks.roles o.marks.assigned o.marks.updated };
}

/// Lets go of a module and of what is kept beside it.
fn let_go(source: Source, marks: Marks) {
    drop(source);
    drop(marks);
}

/// The module behind one more line, where what its name is and the line itself could be stored.
fn rebuilt(
    source: Source,
    marks: Marks,
    told: Result<(), Memory>,
    put: Result<(), Memory>,
) -> Result<Opened, Memory>
    requires { OnOk told (OnOk put (IsKept source marks.roles marks.assigned marks.updated)) }
    ensures { (whole : source_type) → OnOk told (OnOk put (source ≡ whole)) → IfOk result (λ o. o ≡ whole) }
{
    let (Ok(()), Ok(())) = (told, put) else {
        let_go(source, marks);
        return Err(Memory);
    };
    Ok(Opened { source, marks })
}

impl Opened {
    /// A module of which no line but the first stands.
    pub fn new(alloc: Global, name: Name) -> Opened
        ensures { result ≡ fresh name }
    {
        Opened {
            source: Source {
                name,
                ports: List::new(alloc),
                inputs: List::new(alloc),
                outputs: List::new(alloc),
                wires: List::new(alloc),
                registers: List::new(alloc),
                assigns: List::new(alloc),
                updates: List::new(alloc),
                stage: Stage::Ports,
            },
            marks: Marks {
                alloc,
                roles: BTreeMap::new(alloc),
                assigned: BTreeSet::new(alloc),
                updated: BTreeSet::new(alloc),
            },
        }
    }

    pub fn source(&self) -> &Source
        ensures { result.now ≡ self.now }
    {
        &self.source
    }

    pub fn into_source(self) -> Source
        ensures { result ≡ self }
    {
        self.source
    }

    /// What a name is first, where it is declared.
    pub fn role_of(&self, name: &str) -> Option<Role>
        ensures { MatchOption result (Names (declared self.now) name.now → ⊥) (IsRole self.now name.now) }
    {
        self.marks.roles.get(name).copied()
    }

    /// Whether an assignment drives the name.
    pub fn is_assigned(&self, name: &str) -> bool
        ensures { result ≡ specified_is_assigned self.now.assigns name.now }
    {
        self.marks.assigned.contains(name)
    }

    /// Whether a line of `always` changes the name.
    pub fn is_updated(&self, name: &str) -> bool
        ensures { result ≡ specified_is_updated self.now.updates name.now }
    {
        self.marks.updated.contains(name)
    }

    /// With one more port of the header.
    pub fn with_port(self, name: Name) -> Result<Opened, Memory>
        ensures { IfOk result (λ o. o ≡ with_line self (port name)) }
    {
        let mut opened = self;
        let Ok(()) = opened.source.ports.push(name) else {
            drop(opened);
            return Err(Memory);
        };
        Ok(opened)
    }

    /// At another stage.
    pub fn at_stage(self, stage: Stage) -> Opened
        ensures { result ≡ record self { stage = stage } }
    {
        let mut opened = self;
        opened.source.stage = stage;
        opened
    }

    pub fn with_input(self, declared: Port) -> Result<Opened, Memory>
        ensures { IfOk result (λ o. o ≡ with_line self (input declared)) }
    {
        let Opened { source, marks } = self;
        let mut source = source;
        let mut marks = marks;
        let told = declare(
            marks.alloc,
            &mut marks.roles,
            declared.name.as_str(),
            Role::Input,
        );
        let put = source.inputs.push(declared);
        rebuilt(source, marks, told, put)
    }

    pub fn with_output(self, declared: Port) -> Result<Opened, Memory>
        ensures { IfOk result (λ o. o ≡ with_line self (output declared)) }
    {
        let Opened { source, marks } = self;
        let mut source = source;
        let mut marks = marks;
        let told = declare(
            marks.alloc,
            &mut marks.roles,
            declared.name.as_str(),
            Role::Assigned,
        );
        let put = source.outputs.push(declared);
        rebuilt(source, marks, told, put)
    }

    pub fn with_wire(self, declared: Port) -> Result<Opened, Memory>
        ensures { IfOk result (λ o. o ≡ with_line self (wire declared)) }
    {
        let Opened { source, marks } = self;
        let mut source = source;
        let mut marks = marks;
        let told = declare(
            marks.alloc,
            &mut marks.roles,
            declared.name.as_str(),
            Role::Assigned,
        );
        let put = source.wires.push(declared);
        rebuilt(source, marks, told, put)
    }

    pub fn with_register(self, declared: Port) -> Result<Opened, Memory>
        ensures { IfOk result (λ o. o ≡ with_line self (register declared)) }
    {
        let Opened { source, marks } = self;
        let mut source = source;
        let mut marks = marks;
        let told = declare(
            marks.alloc,
            &mut marks.roles,
            declared.name.as_str(),
            Role::Register,
        );
        let put = source.registers.push(declared);
        rebuilt(source, marks, told, put)
    }

    pub fn with_assign(self, assigned: Assign) -> Result<Opened, Memory>
        ensures { IfOk result (λ o. o ≡ with_line self (assign assigned)) }
    {
        let Opened { source, marks } = self;
        let mut source = source;
        let mut marks = marks;
        let told = mark(marks.alloc, &mut marks.assigned, assigned.target.as_str());
        let put = source.assigns.push(assigned);
        rebuilt(source, marks, told, put)
    }

    pub fn with_update(self, updated: Update) -> Result<Opened, Memory>
        ensures { IfOk result (λ o. o ≡ with_line self (update updated)) }
    {
        let Opened { source, marks } = self;
        let mut source = source;
        let mut marks = marks;
        let told = mark(marks.alloc, &mut marks.updated, updated.target.as_str());
        let put = source.updates.push(updated);
        rebuilt(source, marks, told, put)
    }
}
