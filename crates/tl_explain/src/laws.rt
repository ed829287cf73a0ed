// What the lines that explain a plan say.
ghost use Rattle.tl_explain.specs.LawsExplain.{TextExplains};

/// The lines that explain a plan have one for each state up to the first action without a step,
/// with the label of the control formula progressed through the states up to and including it; and
/// the last line says whether all actions execute, or else which is the first without a step.
pub fn lines_explain_the_plan()
    ensures { TextExplains }
{}
