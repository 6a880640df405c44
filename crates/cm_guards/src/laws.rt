//! Laws of guards, plans, gates and runs of calls. Each holds for every claim.
ghost use Rattle.cm_guards.specs.Laws.{GuardedHolds, HoldsDuringWrites, HoldsAfterWrites};
ghost use Rattle.cm_guards.specs.Laws.{HoldsDuringCuts, HoldsAfterCuts, DurableHolds, DurableKeeps};
ghost use Rattle.cm_guards.specs.Laws.{PlansGoOn, PlansKeep};
ghost use Rattle.cm_guards.specs.Laws.{TurnsDuring, TurnsAfter, TurnsContents};
ghost use Rattle.cm_guards.specs.Laws.{ReadyStagesStand, StagesTakeCalls, StagesLeave, CallsGoOn};
ghost use Rattle.cm_guards.specs.Laws.{RunsJoin, CallsLeave, ReadsJoin, ReadIsRun};

use crate::claim::Claim;
use cm_disk::Disk;

/// While nothing that is guarded is unsynced, the claim that holds of the contents holds of each
/// image that a crash may leave.
pub fn guarded_claim_holds_of_each_image<P: Claim>()
    ensures { GuardedHolds P.holds }
{}

/// A write that touches nothing guarded preserves a claim on the contents and on each image: while
/// it runs, and afterwards, whether it succeeded or failed.
pub fn writes_apart_keep_a_claim<P: Claim>()
    ensures during { HoldsDuringWrites P.holds }
    ensures after { HoldsAfterWrites P.holds }
{}

/// The same holds for a cut to a length that is at least what the guard needs.
pub fn cuts_behind_keep_a_claim<P: Claim>()
    ensures during { HoldsDuringCuts P.holds }
    ensures after { HoldsAfterCuts P.holds }
{}

/// After a sync, the claim that holds of the contents holds of each image, and nothing that is
/// guarded is unsynced.
pub fn syncs_keep_a_claim<P: Claim>()
    ensures holds { DurableHolds P.holds }
    ensures keeps { DurableKeeps }
{}

/// When the first of a plan's writes is made, the others are still a plan; and all of them together
/// preserve a claim.
pub fn plans_keep_a_claim<P: Claim>()
    ensures goes_on { PlansGoOn }
    ensures holds { PlansKeep P.holds }
{}

/// Writing a gate's byte when everything is durable leaves one claim or the other for each image
/// until the next sync; the contents have the second once the byte is written.
pub fn gates_turn_claims<P: Claim, Q: Claim>()
    ensures during { TurnsDuring P.holds Q.holds }
    ensures after { TurnsAfter P.holds Q.holds }
    ensures contents { TurnsContents P.holds Q.holds }
{}

/// A plan of stages is carried out call by call, from one claim to another. If everything is
/// durable, a ready plan stands. While it stands, a disk accepts its next call, and what is left of
/// the plan stands afterwards. A crash leaves the first claim, at each moment and after a fault,
/// except at the last gate, where it leaves one or the other.
pub fn stages_are_gone_through<D: Disk, P: Claim, Q: Claim>()
    ensures ready { ReadyStagesStand P.holds Q.holds }
    ensures takes { StagesTakeCalls P.holds Q.holds }
    ensures images { StagesLeave P.holds Q.holds }
    ensures call { CallsGoOn D.view P.holds
        Q.holds }
{}

/// What a crash may leave at any moment of a call, or of two runs of calls one after the other.
pub fn runs_leave_a_claim<D: Disk, P: Claim>()
    ensures join { RunsJoin D.view P.holds }
    ensures call { CallsLeave D.view P.holds }
{}

/// A run of calls that only read changes nothing, and leaves at each moment what a crash might have
/// left before it: a read is such a run, and two such runs make one.
pub fn reads_change_nothing<D: Disk>()
    ensures one { ReadIsRun D.view }
    ensures join { ReadsJoin D.view }
{}
