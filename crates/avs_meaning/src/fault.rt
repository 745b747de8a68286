// Faults of scripts and of their inputs.
use avs_lex::LexKind;
use avs_values::Message;
use clip_term::FilterFault;
use y4m_stream::Y4mFault;

/// Why a script can't be read from its file. The first of these that holds counts, in the order of the variants.
#[derive(Clone, Copy, Debug, PartialEq, Eq)]
pub enum FileKind {
    /// There is no file of this name.
    NotThere,
    /// The file has more than 1,048,576 bytes.
    ScriptTooLong,
    /// The file is no UTF-8.
    NotUtf8,
}

impl FileKind {
    ghost use Rattle.std.specs.Prelude.{◌≡◌};
    ghost use Rattle.avs_meaning.specs.Faults.{file_kind_name};

    /// The name of the fault as it is printed.
    pub fn name(self) -> &'static str
        ensures { result.now ≡ file_kind_name self }
    {
        match self {
            FileKind::NotThere => "NotThere",
            FileKind::ScriptTooLong => "ScriptTooLong",
            FileKind::NotUtf8 => "NotUtf8",
        }
    }
}

/// Why a file is no clip.
#[derive(Clone, Copy, Debug, PartialEq, Eq)]
pub enum InputFault {
    /// There is no file of this name.
    NotThere,
    /// Its bytes are no YUV4MPEG2 stream.
    Y4m(Y4mFault),
}

/// What is wrong at a line of a script.
#[derive(Drop, Debug)]
pub enum ScriptKind {
    /// The text has no tokens.
    Lex(LexKind),
    /// A filter refuses its clips or its arguments.
    Filter(FilterFault),
    /// A script can't be read from its file.
    File(FileKind),
    /// A value is of another kind than the operator or the statement takes.
    TypeFault,
    /// A number is outside 64 bits.
    Overflow,
    /// A division by 0, or its remainder.
    DivZero,
    /// A text is not what the function reads.
    BadText,
    /// A number is outside its range.
    BadRange,
    /// A text is no expression that is evaluated for each frame, or it names planes that the clip hasn't.
    BadExpression,
    /// A text has more than 1,048,576 bytes.
    TextLimit,
    /// The message of an `Assert` whose condition is false.
    AssertFailed(Message),
    /// The tokens are no script.
    Syntax,
    /// More than 32 parentheses, braces, unary operators and branches are open at once.
    NestLimit,
    /// A name that is no variable and no function.
    UnknownName,
    /// The arguments fit no signature of the function.
    NoMatch,
    /// The value of the script is no clip.
    NotClip,
    /// A function has the name of an earlier one.
    DuplicateFunction,
    /// More than 1,000,000 statements and turns of loops.
    StepLimit,
    /// More than 64 calls are nested.
    CallDepth,
    /// More than 4,096 filters.
    NodeLimit,
    /// More than 512 filters stand one on another.
    DepthLimit,
    /// `SetFilterMTMode` of a mode that is not 1, 2 or 3.
    ModeRefused,
    /// `Prefetch` of more than 16 workers or 32 frames, or fewer than 1.
    PrefetchRange,
}

impl ScriptKind {
    ghost use Rattle.std.specs.Prelude.{◌≡◌};
    ghost use Rattle.avs_meaning.specs.Faults.{kind_name};

    /// The name of the fault as it is printed, without the text of an `AssertFailed`.
    pub fn name(&self) -> &'static str
        ensures { result.now ≡ kind_name self.now }
    {
        match self {
            ScriptKind::Lex(kind) => kind.name(),
            ScriptKind::Filter(fault) => fault.name(),
            ScriptKind::File(kind) => kind.name(),
            ScriptKind::AssertFailed(_) => "AssertFailed",
            ScriptKind::TypeFault => "TypeFault",
            ScriptKind::Overflow => "Overflow",
            ScriptKind::DivZero => "DivZero",
            ScriptKind::BadText => "BadText",
            ScriptKind::BadRange => "BadRange",
            ScriptKind::BadExpression => "BadExpression",
            ScriptKind::TextLimit => "TextLimit",
            ScriptKind::Syntax => "Syntax",
            ScriptKind::NestLimit => "NestLimit",
            ScriptKind::UnknownName => "UnknownName",
            ScriptKind::NoMatch => "NoMatch",
            ScriptKind::NotClip => "NotClip",
            ScriptKind::DuplicateFunction => "DuplicateFunction",
            ScriptKind::StepLimit => "StepLimit",
            ScriptKind::CallDepth => "CallDepth",
            ScriptKind::NodeLimit => "NodeLimit",
            ScriptKind::DepthLimit => "DepthLimit",
            ScriptKind::ModeRefused => "ModeRefused",
            ScriptKind::PrefetchRange => "PrefetchRange",
        }
    }
}
