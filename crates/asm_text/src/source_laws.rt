//! Laws of source texts. The functions are laws: there is nothing to run.

ghost use Rattle.asm_text.specs.DataLaws.{DataLinesAreFills, DataTextsAreFills};
ghost use Rattle.asm_text.specs.FaultLaws.{FaultsAreFirst, LinesAddUp};
ghost use Rattle.asm_text.specs.LabelLaws.{LabelsStandFirst, MissingLabels};
ghost use Rattle.asm_text.specs.ProfileLaws.{FirstProfileDecides};

/// The law of labels: a label has the place of the least line that it stands on, and its value is the number of
/// instruction lines before that line. A name that is no line's label has no place. There is nothing to run.
pub fn labels_stand_on_their_least_line()
    ensures first { LabelsStandFirst }
    ensures missing { MissingLabels }
{}

/// The law of faults: where a text has a fault on a line, no line before it has one. A text means an image just where
/// each line adds to what the lines before it gave, and they give that image. There is nothing to run.
pub fn faults_are_on_their_least_line()
    ensures fault { FaultsAreFirst }
    ensures means { LinesAddUp }
{}

/// The law of `.data`: `.data v` says what `.fill 1, v, 1` says, in every text and for every operand `v`. There is
/// nothing to run.
pub fn data_is_one_full_cell()
    ensures lines { DataLinesAreFills }
    ensures texts { DataTextsAreFills }
{}

/// The law of profiles: the image that a text means has Profile 2 just where the first of its lines whose head is
/// `.profile` says 2, wherever that line stands. There is nothing to run.
pub fn first_profile_line_decides()
    ensures { FirstProfileDecides }
{}
