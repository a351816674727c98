//! What a step read for what it wrote into a location.

ghost use Rattle.std.specs.Prelude.{◌≡◌, ◌++◌, [], ◌∷◌, IfOk, OnOk};
ghost use Rattle.value_origins.specs.Locations.{one, two, read_for, read_for_register, parts_read};
ghost use Rattle.value_origins.specs.Locations.{control_reads, accessed, read_for_word};
ghost use Rattle.value_origins.specs.Locations.{read_for_target, target_source, created_from, taken_along};

use crate::locations::Location;
use crate::streams::is_quit;
use insn_word::{APart, CPart, ControlOp, Insn, WideOp};
use processor::Step;
use run_findings::{Access, Action, Deed};
use std::alloc::{AllocError, Global};
use tag_memory::MemOp;

/// The locations that a step read for what it wrote into this one.
pub(crate) fn locations_read(
    alloc: Global,
    action: &Action,
    location: Location,
) -> Result<Vec<Location>, AllocError>
    ensures { IfOk result (λ v. v.items ≡ read_for location action.now) }
{
    match location {
        Location::Register { stream, register } => {
            if action.is_by(stream) {
                read_for_register(alloc, action, register)
            } else if register == 1 {
                one(alloc, action.stream, created_from(&action.deed))
            } else {
                Ok(Vec::new(alloc))
            }
        }
        Location::Target { stream, target } => {
            if action.is_by(stream) {
                one(alloc, stream, read_for_target(&action.deed))
            } else if target == 0 {
                just(
                    alloc,
                    Location::Target {
                        stream: action.stream,
                        target: 0,
                    },
                )
            } else {
                Ok(Vec::new(alloc))
            }
        }
        Location::Word { .. } => read_for_word(alloc, action),
    }
}

/// This location alone.
fn just(alloc: Global, location: Location) -> Result<Vec<Location>, AllocError>
    ensures { IfOk result (λ v. v.items ≡ location ∷ []) }
{
    let mut places = Vec::new(alloc);
    places.push(location)?;
    Ok(places)
}

/// A register, unless it is r0.
fn one(alloc: Global, stream: Step, register: u8) -> Result<Vec<Location>, AllocError>
    ensures { IfOk result (λ v. v.items ≡ one stream register) }
{
    if register == 0 {
        Ok(Vec::new(alloc))
    } else {
        just(alloc, Location::Register { stream, register })
    }
}

/// Two registers, or one where they are the same.
fn two(alloc: Global, stream: Step, first: u8, second: u8) -> Result<Vec<Location>, AllocError>
    ensures { IfOk result (λ v. v.items ≡ two stream first second) }
{
    let mut places = one(alloc, stream, first)?;
    if first != second {
        add(&mut places, one(alloc, stream, second)?)?;
    }
    Ok(places)
}

/// Adds other locations.
fn add(places: &mut Vec<Location>, others: Vec<Location>) -> Result<(), AllocError>
    ensures { OnOk result (places.new.items ≡ places.old.items ++ others.items) }
{
    places.extend_from_slice(&others)
}

/// What a step of a register's stream read for what it wrote into the register.
fn read_for_register(
    alloc: Global,
    action: &Action,
    register: u8,
) -> Result<Vec<Location>, AllocError>
    ensures { IfOk result (λ v. v.items ≡ read_for_register action.now action.now.deed register) }
{
    match &action.deed {
        Deed::Nothing | Deed::Trap => Ok(Vec::new(alloc)),
        Deed::Instruction(Insn::Wide { op, reg, .. }) => match op {
            WideOp::LiteralHigh => one(alloc, action.stream, *reg),
            WideOp::Literal | WideOp::TargetLiteral => Ok(Vec::new(alloc)),
        },
        Deed::Instruction(Insn::Normal { a, c, .. }) => {
            parts_read(alloc, action, a, c, register)
        }
    }
}

/// The same of an instruction of up to three operations: by the one that wrote the register.
fn parts_read(
    alloc: Global,
    action: &Action,
    a: &APart,
    c: &CPart,
    register: u8,
) -> Result<Vec<Location>, AllocError>
    ensures { IfOk result (λ v. v.items ≡ parts_read action.now a.now c.now register) }
{
    if is_quit(c.op) {
        Ok(Vec::new(alloc))
    } else if c.destination() == register {
        control_reads(alloc, action.stream, c)
    } else if a.destination() == register {
        let second = if a.imm { 0 } else { a.rb };
        two(alloc, action.stream, a.ra, second)
    } else {
        accessed(alloc, &action.access)
    }
}

/// What a control operation read for what it wrote into a register: TGET alone has a target register's value.
fn control_reads(alloc: Global, stream: Step, c: &CPart) -> Result<Vec<Location>, AllocError>
    ensures { IfOk result (λ v. v.items ≡ control_reads stream c.now.op c.now) }
{
    match c.op {
        ControlOp::TargetGet => just(
            alloc,
            Location::Target {
                stream,
                target: c.t,
            },
        ),
        ControlOp::Nop
        | ControlOp::Jump
        | ControlOp::Skip
        | ControlOp::Call
        | ControlOp::Exchange
        | ControlOp::TargetSet
        | ControlOp::TrapGet
        | ControlOp::Reserve
        | ControlOp::Create
        | ControlOp::Quit
        | ControlOp::QuitKeep
        | ControlOp::Mask => Ok(Vec::new(alloc)),
    }
}

/// The word of an access.
fn accessed(alloc: Global, access: &Option<Access>) -> Result<Vec<Location>, AllocError>
    ensures { IfOk result (λ v. v.items ≡ accessed access.now) }
{
    match access {
        Some(access) => just(
            alloc,
            Location::Word {
                address: access.address,
            },
        ),
        None => Ok(Vec::new(alloc)),
    }
}

/// What a step read for what it wrote into its word.
fn read_for_word(alloc: Global, action: &Action) -> Result<Vec<Location>, AllocError>
    ensures { IfOk result (λ v. v.items ≡ read_for_word action.now action.now.access) }
{
    let Some(access) = &action.access else {
        return Ok(Vec::new(alloc));
    };
    let word = accessed(alloc, &action.access)?;
    let along = one(alloc, action.stream, taken_along(&action.deed))?;
    match access.op {
        MemOp::Load | MemOp::TagGet => Ok(word),
        MemOp::Store | MemOp::Purge => Ok(along),
        MemOp::Fadd | MemOp::TagSet => {
            let mut places = word;
            add(&mut places, along)?;
            Ok(places)
        }
    }
}

/// The register whose value a step put into a target register; 0 where it put none there.
fn read_for_target(deed: &Deed) -> u8
    ensures { result ≡ read_for_target deed.now }
{
    match deed {
        Deed::Instruction(Insn::Normal { c, .. }) => target_source(c),
        Deed::Instruction(Insn::Wide { .. }) | Deed::Nothing | Deed::Trap => 0,
    }
}

fn target_source(c: &CPart) -> u8
    ensures { result ≡ target_source c.now.op c.now }
{
    match c.op {
        ControlOp::TargetSet => c.ra,
        ControlOp::Nop
        | ControlOp::Jump
        | ControlOp::Skip
        | ControlOp::Call
        | ControlOp::Exchange
        | ControlOp::TargetGet
        | ControlOp::TrapGet
        | ControlOp::Reserve
        | ControlOp::Create
        | ControlOp::Quit
        | ControlOp::QuitKeep
        | ControlOp::Mask => 0,
    }
}

/// The register whose value CREATE gives to r1.
fn created_from(deed: &Deed) -> u8
    ensures { result ≡ created_from deed.now }
{
    match deed {
        Deed::Instruction(Insn::Normal { c, .. }) => c.ra,
        Deed::Instruction(Insn::Wide { .. }) | Deed::Nothing | Deed::Trap => 0,
    }
}

/// The register that a memory operation takes along.
fn taken_along(deed: &Deed) -> u8
    ensures { result ≡ taken_along deed.now }
{
    match deed {
        Deed::Instruction(Insn::Normal { m, .. }) => m.rd,
        Deed::Instruction(Insn::Wide { .. }) | Deed::Nothing | Deed::Trap => 0,
    }
}
