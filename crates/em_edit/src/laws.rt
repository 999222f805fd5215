ghost use Rattle.em_edit.specs.Laws.{FirstPartFirst, NoneMoves, NoPartKeeps, OrderStays, OutsideStays, TakenFit};

/// With no part the text stays.
#[tactic(auto, using(crate::proofs::FirstParts::no_part))]
pub fn no_part_keeps()
    ensures { NoPartKeeps }
{}

/// The part that comes before all others is put in first, and the others into the rest.
#[tactic(auto, using(crate::proofs::FirstParts::first_part))]
pub fn first_part_first()
    ensures { FirstPartFirst }
{}

/// The findings that `select` takes can be applied, if their parts lie in the texts on boundaries.
#[tactic(auto, using(crate::proofs::MovedLaws::taken_fit))]
pub fn taken_fit()
    ensures { TakenFit }
{}

/// No suggestion moves a range.
#[tactic(auto, using(crate::proofs::MovedLaws::none_moves))]
pub fn none_moves()
    ensures { NoneMoves }
{}

/// Moving keeps the order of two ranges that don't meet.
#[tactic(auto, using(crate::proofs::MovedLaws::order_stays))]
pub fn order_stays()
    ensures { OrderStays }
{}

/// What lies outside of all parts is found again at its moved place.
#[tactic(auto, using(crate::proofs::MovedLaws::outside_stays))]
pub fn outside_stays()
    ensures { OutsideStays }
{}
