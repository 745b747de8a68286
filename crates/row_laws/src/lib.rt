//! Small examples of the definitions, each computed: a reader who checks some by hand knows what the definitions say.
//!
//! Each table is a record of equations in `specs/`, and the contract of a function with an empty body. What is expected was
//! worked out from the descriptions of AviSynth+ and of YUV4MPEG2.
#![tactic(auto)]

ghost use Rattle.row_laws.specs.DeepRows.{DeepChoiceRows, DeepFieldRows, DeepJoinRows, DeepSoftRows, DeepSpaceRows};
ghost use Rattle.row_laws.specs.FieldRows.{FieldRows};
ghost use Rattle.row_laws.specs.ModeRows.{ModeRows};
ghost use Rattle.row_laws.specs.PlaceRows.{PlaceRows, TreeRows};
ghost use Rattle.row_laws.specs.StreamRows.{ScriptFaults, StreamTexts};
ghost use Rattle.row_laws.specs.SmallStreams.{AreStreams};
ghost use Rattle.row_laws.specs.TokenRows.{LexFaultRows, TokenRows};
ghost use Rattle.row_laws.specs.ValueRows.{NumberRows, OperatorRows, OtherValueRows, TextRows};

/// Small streams, and scripts over them: the whole text that each writes, or its fault and line.
pub fn streams()
    ensures files { AreStreams }
    ensures texts { StreamTexts }
    ensures faults { ScriptFaults }
{}

/// Texts and their tokens, or their first lexical fault and its line.
pub fn tokens()
    ensures tokens { TokenRows }
    ensures faults { LexFaultRows }
{}

/// Texts and their trees, or the line at which no script goes on, or nests too deep.
pub fn places()
    ensures trees { TreeRows }
    ensures faults { PlaceRows }
{}

/// Operators and functions on values, and what each refuses.
pub fn values()
    ensures operators { OperatorRows }
    ensures numbers { NumberRows }
    ensures texts { TextRows }
    ensures others { OtherValueRows }
{}

/// The mode of a filter after calls of `SetFilterMTMode`.
pub fn modes()
    ensures { ModeRows }
{}

/// Filters on the fields of frames of 8 bits.
pub fn fields()
    ensures { FieldRows }
{}

/// Filters of each group but that of time, on samples of 10 and 16 bits.
pub fn deep_samples()
    ensures space { DeepSpaceRows }
    ensures join { DeepJoinRows }
    ensures soft { DeepSoftRows }
    ensures field { DeepFieldRows }
    ensures choice { DeepChoiceRows }
{}
