//! What the slots mean, as laws.

ghost use Rattle.std.specs.Prelude.{◌≡◌};
ghost use Rattle.cm_layout.specs.declared.entry.Entry.{Entry};
ghost use Rattle.cm_layout.specs.declared.heads.HalfHead.{HalfHead};
ghost use Rattle.cm_layout.specs.declared.heads.GroupHead.{GroupHead};
ghost use Rattle.cm_layout.specs.Laws.{FramesAreOne, FramingsAreOne, RowsAreApart, RowsStayLive};
ghost use Rattle.cm_layout.specs.Laws.{EntriesStayLive, RowsGrow, LoadersAreOwn, MovesStand};
ghost use Rattle.cm_layout.specs.Laws.{FramesAreMatched, MatchesFrame, AgreementMatches};
ghost use Rattle.cm_layout.specs.Slots.{entry_slots, FitsEntry, half_head_slot, FitsHalfHead};
ghost use Rattle.cm_layout.specs.Slots.{group_head_slot, FitsGroupHead};

/// A slot determines its entry: no two entries that fit have one slot.
pub fn slot_determines_entry()
    ensures { (e d : Entry (Unit {0})) → FitsEntry e → FitsEntry d → entry_slots e ≡ entry_slots d
        → e ≡ d }
{}

/// A slot determines the head of its half, or of its group.
pub fn slot_determines_head()
    ensures halves { (h g : HalfHead) → FitsHalfHead h → FitsHalfHead g
        → half_head_slot h ≡ half_head_slot g → h ≡ g }
    ensures groups { (h g : GroupHead) → FitsGroupHead h → FitsGroupHead g
        → group_head_slot h ≡ group_head_slot g → h ≡ g }
{}

/// If rows and entries keep the rules, their chunks are apart: chunks that differ share no word,
/// and no chunk has two loaders.
pub fn rows_are_apart()
    ensures { RowsAreApart }
{}

/// Rows after groups that keep the rules, Unloads and Moves included, are live rows that keep
/// theirs, for the number of the last entry: a new half can begin with them.
pub fn rows_stay_live()
    ensures { RowsStayLive }
{}

/// Adding one entry that keeps the rules, or one live row, leaves live rows that keep theirs.
pub fn live_rows_go_on()
    ensures entries { EntriesStayLive }
    ensures rows { RowsGrow }
{}

/// Loaders of live rows that keep the rules differ in number and name, their numbers are those of
/// past commands, and each class belongs to one of them.
pub fn loaders_are_own()
    ensures { LoadersAreOwn }
{}

/// If a move has written the records on a loader's last chunk one after another, from the beginning
/// of the new chunk, then the records of the rows after the move are in their places: each keeps
/// its offset.
pub fn moves_stand()
    ensures { MovesStand }
{}

/// A file's contents determine what they frame: its sizes, its rows with the words of their
/// records, and the number of the last command.
pub fn contents_determine_rows()
    ensures { FramesAreOne }
{}

/// A file's contents determine the half that counts: whatever framings they match, it is the same
/// half with the same head, live rows and groups.
pub fn contents_determine_head()
    ensures { FramingsAreOne }
{}

/// Contents frame rows and a number exactly if they match, range by range, a framing that is right
/// for these.
pub fn frames_are_matched()
    ensures from { FramesAreMatched }
    ensures to { MatchesFrame }
{}

/// Contents that are long enough, and agree with others on what is guarded, match the same framing,
/// so they frame the same rows and number. Guarded are the superblock, the half that counts and the
/// byte after its end, the other half's gate with its head if that is open, and the records.
pub fn agreement_frames()
    ensures { AgreementMatches }
{}
