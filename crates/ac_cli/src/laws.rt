//! A law of the definitions. The function does nothing: its contract is the law.
ghost use Rattle.ac_cli.specs.Laws.{FormsHoldCells};

/// Where a command writes rows, the cells of these rows stand in each form.
#[tactic(auto, using(crate::proofs::FormsHold::forms_hold_cells))]
pub fn forms_hold_cells()
    ensures { FormsHoldCells }
{}
