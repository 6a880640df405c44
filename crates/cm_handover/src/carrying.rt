//! How each group that is handed over continues those before it, as laws.

ghost use Rattle.cm_handover.specs.Carrying.{HandedCarriesOn, JoinedCarriesOn, CarriedMayCome};

/// What an accepted cache hands out continues all that it handed out before, if what it has learnt
/// is durable. So do two such groups joined into one; and a group may be committed next once those
/// before it are.
pub fn groups_may_follow()
    ensures handed { HandedCarriesOn }
    ensures joined { JoinedCarriesOn }
    ensures next { CarriedMayCome }
{}
