// Facts about the definitions that no single call promises: each function does nothing, and its contract is the
// statement.
ghost use Rattle.placement.specs.Figures.{FiguresHold};
ghost use Rattle.placement.specs.Laws.{LawfulMovesOne};

// The worked figures follow from the definitions.
pub fn figures_hold()
    ensures { FiguresHold }
{
    // The statement is the contract: there is nothing to do.
}

// Under every lawful placement a join or a leave moves at most one store of a key: at most one is gained and at
// most one is lost.
#[tactic(auto, using(crate::proofs::Moving::lawful_moves_one))]
pub fn lawful_moves_one()
    ensures { LawfulMovesOne }
{
    // The statement is the contract: there is nothing to do.
}
