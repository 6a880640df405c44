//! One group of classes.

ghost use Rattle.std.specs.Prelude.{◌≡◌, IsErr, IfOk, ℕ, map};
ghost use Rattle.cm_guards.specs.Calls.{LeavesOnly};
ghost use Rattle.cm_record.specs.Names.{class_name_in};
ghost use Rattle.cm_state.specs.Step.{Define};
ghost use Rattle.cm_commands.specs.Machine.{Machine};
ghost use Rattle.cm_session.specs.Moves.{SessionMatches, ReachesMachine};
ghost use Rattle.cm_importing.specs.Groups.{Takes, TakesEach, defines, ImportsGroup};
ghost use Rattle.cm_importing.specs.Outcomes.{IsSame};
ghost use Rattle.cm_importing.specs.Runs.{ImportsFrom};

use crate::fault::ImportFault;
use crate::named::{NamedClass, with_names};
use crate::outcome::{Outcome, outcome_of};
use cm_commands::{Command, Prepared};
use cm_disk::Disk;
use cm_session::Session;
use std::alloc::{AllocError, Global};

/// Whether the class of this name that the loader has is this very one.
fn is_there<D: Disk>(session: &Session<D>, loader: &[u8], name: &[u8], class: &Prepared) -> bool
    requires { name.now ≡ class_name_in class.now }
    ensures { (k : Machine) → SessionMatches k session.now
        → IsSame session.now.committer.sizes k loader.now class.now result }
{
    match session.find(loader, name) {
        Some(record) => record.has_same_words(class.record()),
        None => false,
    }
}

/// Asks for a class to be defined in this loader, and says what becomes of it.
fn define_one<D: Disk>(session: &mut Session<D>, loader: &[u8], named: NamedClass) -> Outcome
    ensures machine { (k : Machine) → SessionMatches k session.old
        → ReachesMachine
        (Takes session.old.committer.sizes k (Define loader.now named.class) result)
        (λ next. SessionMatches next session.new) }
    ensures disk { session.new.committer ≡ session.old.committer }
{
    let NamedClass { class, name } = named;
    let is_there = is_there(session, loader, &name, &class);
    outcome_of(session.accept(Command::Define(loader, class)), is_there)
}

/// Asks for each of the classes to be defined in this loader. At `Err` none was asked for.
fn define_each<D: Disk>(
    alloc: Global,
    session: &mut Session<D>,
    loader: &[u8],
    classes: Vec<Prepared>,
) -> Result<Vec<Outcome>, AllocError>
    ensures machine { (k : Machine) → SessionMatches k session.old
        → IfOk result (λ outcomes. ReachesMachine
        (TakesEach session.old.committer.sizes k (defines loader.now classes.items) outcomes.items)
        (λ next. SessionMatches next session.new)) }
    ensures none { IsErr result → session.new ≡ session.old }
    ensures disk { session.new.committer ≡ session.old.committer }
{
    let named = with_names(alloc, classes)?;
    let mut outcomes = Vec::with_capacity(alloc, named.len())?;
    'classes: for class in named {
        outcomes.push_reserved(define_one(session, loader, class));
    }
    Ok(outcomes)
}

/// Defines the classes in this loader, and stores all that are accepted. Gives what became of each.
pub(crate) fn import_group<D: Disk>(
    alloc: Global,
    session: &mut Session<D>,
    loader: &[u8],
    classes: Vec<Prepared>,
) -> Result<Vec<Outcome>, ImportFault>
    ensures machine { ImportsFrom (ImportsGroup (LeavesOnly D.view) session.old.committer.sizes
        (defines loader.now classes.items) result) session.old session.new }
    ensures sizes { session.new.committer.sizes ≡ session.old.committer.sizes }
{
    let outcomes = match define_each(alloc, session, loader, classes) {
        Ok(outcomes) => outcomes,
        Err(_) => return Err(ImportFault::NoMemory),
    };
    if session.commit().is_err() {
        return Err(ImportFault::Device);
    }
    Ok(outcomes)
}
