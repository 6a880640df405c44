//! Whole simulations.

ghost use Rattle.std.specs.Prelude.{◌≡◌, ◌<◌, ◌+◌, ◌^◌, ℕ, Some, IfOk, IfErr, length};
ghost use Rattle.cm_lines.specs.Lines.{lines_of};
ghost use Rattle.cm_events.specs.Made.{IsSimulation, IsLineFault, first_bad_from, AreOf};
ghost use Rattle.cm_events.specs.declared.fault.SimulationFault.TheVariants as fault;

use crate::fault::SimulationFault;
use crate::geometry::geometry_of;
use crate::lines::next_line;
use crate::made::{EventFault, Made, make};
use cm_commands::Refusal;
use cm_pool::Geometry;
use cm_world::Event;
use std::alloc::{AllocError, Global};

/// Whether a line is an event.
#[derive(Clone, Copy, Debug, PartialEq, Eq)]
pub enum Turn {
    /// It is one.
    Runs,
    /// It is none: its class is refused before it can be defined.
    Refused(Refusal),
}

/// What the lines of a simulation request.
#[derive(Drop)]
pub struct Simulation<'a> {
    /// The sizes of the file.
    pub geometry: Geometry,
    /// The events, in order.
    pub events: Vec<Event<'a>>,
    /// The result of each line after the first.
    pub turns: Vec<Turn>,
}

/// Reads the first line for the sizes and the others for the events.
///
/// `BadLine` names the first line that doesn't have the required form; a text without a line lacks
/// the first one. `NoMemory` if an allocation failed, other than one for a class: such a line is
/// refused.
pub fn read_simulation<'a>(alloc: Global, text: &'a [u8]) -> Result<Simulation<'a>, SimulationFault>
    ensures read { IfOk result (IsSimulation (lines_of text.now)) }
    ensures bad { IfErr result (IsLineFault (lines_of text.now)) }
{
    let Some((first, rest)) = next_line(text) else {
        return Err(SimulationFault::BadLine(1));
    };
    let Some(geometry) = geometry_of(first) else {
        return Err(SimulationFault::BadLine(1));
    };
    read_events(alloc, geometry, rest)
}

/// Reads the lines after the first.
fn read_events<'a>(
    alloc: Global,
    geometry: Geometry,
    text: &'a [u8],
) -> Result<Simulation<'a>, SimulationFault>
    requires { length text.now + 1 < 2 ^ 64 }
    ensures geometry { IfOk result (λ s. s.geometry ≡ geometry) }
    ensures events { IfOk result (λ s. AreOf (lines_of text.now) s.events.items s.turns.items) }
    ensures bad { IfErr result (λ e. (n : ℕ) → e ≡ fault.BadLine n
        → first_bad_from 2 (lines_of text.now) ≡ Some n) }
{
    let mut simulation = Simulation {
        geometry,
        events: Vec::new(alloc),
        turns: Vec::new(alloc),
    };
    let mut number = 1;
    let mut rest = text;
    'lines: while let Some((line, behind)) = next_line(rest) {
        number += 1;
        match simulation.take_line(alloc, line) {
            Ok(()) => rest = behind,
            Err(EventFault::BadForm) => return Err(SimulationFault::BadLine(number)),
            Err(EventFault::NoMemory) => return Err(SimulationFault::NoMemory),
        }
    }
    Ok(simulation)
}

impl<'a> Simulation<'a> {
    ghost use Rattle.std.specs.Prelude.{◌++◌, ◌∷◌, [], None, OnOk, IsErrOf};
    ghost use Rattle.cm_events.specs.Asked.{event_of_line};
    ghost use Rattle.cm_events.specs.Made.{TakesLine, event_in, turn_of};

    /// Adds a line's request.
    fn take_line(&mut self, alloc: Global, line: &'a [u8]) -> Result<(), EventFault>
        ensures taken { OnOk result (TakesLine line.now self.old self.new) }
        ensures bad { IsErrOf result EventFault.BadForm → event_of_line line.now ≡ None }
        ensures geometry { self.new.geometry ≡ self.old.geometry }
    {
        match make(alloc, line) {
            Ok(made) => self.push(made),
            Err(fault) => Err(fault),
        }
    }

    fn push(&mut self, made: Made<'a>) -> Result<(), EventFault>
        ensures events { OnOk result
            (self.new.events.items ≡ self.old.events.items ++ event_in made.entry) }
        ensures turns { OnOk result
            (self.new.turns.items ≡ self.old.turns.items ++ turn_of made.entry ∷ []) }
        ensures fault { IsErrOf result EventFault.BadForm → ⊥ }
        ensures geometry { self.new.geometry ≡ self.old.geometry }
    {
        match self.push_both(made) {
            Ok(()) => Ok(()),
            Err(_) => Err(EventFault::NoMemory),
        }
    }

    fn push_both(&mut self, made: Made<'a>) -> Result<(), AllocError>
        ensures events { OnOk result
            (self.new.events.items ≡ self.old.events.items ++ event_in made.entry) }
        ensures turns { OnOk result
            (self.new.turns.items ≡ self.old.turns.items ++ turn_of made.entry ∷ []) }
        ensures geometry { self.new.geometry ≡ self.old.geometry }
    {
        match made {
            Made::Runs(event) => {
                self.events.push(event)?;
                self.turns.push(Turn::Runs)?;
                Ok(())
            }
            Made::Refused(refusal) => {
                self.turns.push(Turn::Refused(refusal))?;
                Ok(())
            }
        }
    }
}
