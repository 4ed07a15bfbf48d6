// What a view of a survey owes, and that the three views of this library meet it.
#![tactic(auto)]

ghost use Rattle.view_laws.specs.Laws.{ThreeViews};

/// The theorem that declination, mirrored and reversed are views: one-to-one on valid legs, and keeping
/// refusals, clashes and attributes.
pub fn views_keep_surveys()
    ensures { ThreeViews }
{}
