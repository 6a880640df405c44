//! Facts about the definitions themselves, as laws.

ghost use Rattle.cm_commit.specs.Laws.{PlansHaveSteps, CommittedIsGuarded, GroupsTurn};
ghost use Rattle.cm_commit.specs.Laws.{ShutHalvesMayChange, OtherHalvesShut, OthersAreTold};
ghost use Rattle.cm_commit.specs.Laws.{WrittenHalvesOpen, CheckpointsRenew, GroupsGoThrough};
ghost use Rattle.cm_commit.specs.Laws.{TrimsStand};

/// A group takes four device calls, one more for each root by which the file grows, one more for
/// each record that it writes, and six more for a checkpoint if the half that counts has no room
/// for it.
pub fn plans_have_steps()
    ensures { PlansHaveSteps }
{}

/// What is committed rests only on what is guarded: the superblock, the half that counts with the
/// byte after it, the other half's gate and head, and the records of rows.
pub fn committed_is_guarded()
    ensures { CommittedIsGuarded }
{}

/// A group's writes touch nothing that is guarded. Then one byte, the group's gate, turns what is
/// committed before the group into what is committed after it; as long as that byte has any other
/// value, what was committed before still is.
pub fn groups_turn()
    ensures { GroupsTurn }
{}

/// While the gate of the half that doesn't count is shut, what is committed stays, whatever bytes
/// are written after that gate.
pub fn shut_halves_may_change()
    ensures { ShutHalvesMayChange }
{}

/// The half that doesn't count may be shut at any time: with any byte at its gate but the one that
/// opens it, what is committed stays.
pub fn other_halves_shut()
    ensures { OtherHalvesShut }
{}

/// The byte at that half's gate says whether the half is open.
pub fn others_are_told()
    ensures { OthersAreTold }
{}

/// Once that half is written after its shut gate, with the live rows, the number of the last
/// command and an epoch one greater, the byte that opens the gate makes it the half that counts,
/// for the same rows and the same number.
pub fn written_halves_open()
    ensures { WrittenHalvesOpen }
{}

/// A checkpoint can be made whenever its head is a good one. At each moment of its six device calls
/// a crash leaves what is committed, and at their end this is in renewed halves. Whatever calls can
/// follow there can follow the checkpoint.
pub fn checkpoints_renew()
    ensures { CheckpointsRenew }
{}

/// A group's device calls, after those of a checkpoint if there is one, lead from what is committed
/// to what is committed after the group. At each moment until the group's own gate is written, a
/// crash leaves what is committed.
pub fn groups_go_through()
    ensures { GroupsGoThrough }
{}

/// The file may be truncated after the last root that rows use: at each moment of the cut and of
/// the sync that follows, a crash leaves what is committed, and at their end the file has exactly
/// those roots.
pub fn trims_stand()
    ensures { TrimsStand }
{}
