// What stands around a statement or a function, and how braces change it.
ghost use Rattle.std.specs.Prelude.{◌≡◌, ◌∷◌, ◌++◌, [], map, option_map, IfOk};
ghost use Rattle.avs_tree.specs.View.{expr_view, function_view, kind_view, statement_view};
ghost use Rattle.avs_tree.specs.Machine as machine;
ghost use Rattle.avs_frames.specs.ScriptViews.{Steps, ended_view, inner, outer, level_view, levels_view, owner_view, step_view};

use crate::block::{close_level, close_outermost, goes, refused};
use crate::memory::{Outcome, pushed};
use crate::script_state::{
    Ended, Level, OpenFunction, Owner, ScriptStep, Signature, StatementState,
};
use avs_tree::{Expr, Function, Script, Statement, StatementKind};
use std::alloc::Global;

/// The open braces, the innermost last, and the functions of the script so far.
pub struct Levels {
    pub inner: Vec<Level>,
    /// The outermost braces, where they are those of a function.
    pub function: Option<OpenFunction>,
    pub functions: Vec<Function>,
}

/// What stands around a statement or a function: its line, the statements before it, and the open braces.
pub struct Around {
    pub line: u32,
    pub before: Vec<Statement>,
    pub levels: Levels,
}

// These two go out of scope wherever memory may run out. A `drop` that is written is one call there. One that is derived is
// a step of the proof for each part.

impl Drop for Levels {
    fn drop(self) {
        let Levels {
            inner: _inner,
            function: _function,
            functions: _functions,
        } = self;
    }
}

impl Drop for Around {
    fn drop(self) {
        let Around {
            line: _line,
            before: _before,
            levels: _levels,
        } = self;
    }
}

// The step of a `for`, if there is one.
fn unboxed(step: Option<Box<Expr>>) -> Option<Expr>
    ensures { option_map expr_view result ≡ option_map (λ number. expr_view number.value) step }
{
    match step {
        Some(number) => Some(Box::into_inner(number)),
        None => None,
    }
}

// What a statement does, as the tree has it.
fn kind(ended: Ended) -> StatementKind
    ensures { kind_view result ≡ ended_view ended }
{
    match ended {
        Ended::Value(value) => StatementKind::Value(Box::into_inner(value)),
        Ended::Global(name, value) => {
            let value = Box::into_inner(value);
            StatementKind::Global { name, value }
        }
        Ended::Assign(name, value) => {
            let value = Box::into_inner(value);
            StatementKind::Assign { name, value }
        }
        Ended::Return(value) => StatementKind::Return(Box::into_inner(value)),
        Ended::If(arms, other) => StatementKind::If { arms, other },
        Ended::While(condition, body) => {
            let condition = Box::into_inner(condition);
            StatementKind::While { condition, body }
        }
        Ended::For(head, body) => StatementKind::For {
            name: head.name,
            first: Box::into_inner(head.first),
            last: Box::into_inner(head.last),
            step: unboxed(head.step),
            body,
        },
    }
}

// The statements with one more.
#[tactic(auto, using(crate::proofs::RowLemmas::statements_push))]
fn with_statement(before: Vec<Statement>, ended: Ended, line: u32) -> Outcome<Vec<Statement>>
    ensures { IfOk result (λ made. map statement_view made.items
        ≡ map statement_view before.items ++ (ended_view ended, line) ∷ []) }
{
    let kind = kind(ended);
    pushed(before, Statement { kind, line })
}

impl Levels {
    /// No braces are open, after these functions.
    #[tactic(auto, using(crate::proofs::LevelLemmas::levels_none))]
    pub fn new(alloc: Global, functions: Vec<Function>) -> Levels
        ensures { levels_view result ≡ machine.top (map function_view functions.items) }
    {
        Levels {
            inner: Vec::new(alloc),
            function: None,
            functions,
        }
    }

    /// How many braces are open.
    #[tactic(auto, using(crate::proofs::LevelLemmas::depth_within))]
    pub fn depth(&self) -> usize
        ensures { result ≡ machine.depth (levels_view self.now) }
    {
        let outermost = match self.function {
            Some(_) => 1,
            None => 0,
        };
        self.inner.len() + outermost
    }

    // The functions, without the braces.
    fn into_functions(self) -> Vec<Function>
        ensures { result ≡ self.functions }
    {
        let Levels {
            inner: _inner,
            function: _function,
            functions,
        } = self;
        functions
    }

    // One more open brace, inside of the others.
    #[tactic(auto, using(crate::proofs::LevelLemmas::levels_push))]
    fn with(self, level: Level) -> Outcome<Levels>
        ensures { IfOk result (λ made. levels_view made ≡ level_view level (levels_view self)) }
    {
        let Levels {
            inner,
            function,
            functions,
        } = self;
        match pushed(inner, level) {
            Ok(inner) => Ok(Levels {
                inner,
                function,
                functions,
            }),
            Err(error) => {
                drop((function, functions));
                Err(error)
            }
        }
    }

    // The right brace, after these statements.
    #[tactic(auto, using(crate::proofs::LevelLemmas::of_levels))]
    fn close(self, alloc: Global, body: Vec<Statement>) -> Outcome<ScriptStep>
        ensures { Steps result (machine.close_by (map statement_view body.items) (levels_view self)) }
    {
        let Levels {
            mut inner,
            function,
            functions,
        } = self;
        match inner.pop() {
            Some(level) => {
                let levels = Levels {
                    inner,
                    function,
                    functions,
                };
                let Level {
                    owner,
                    line,
                    before,
                } = level;
                let around = Around {
                    line,
                    before,
                    levels,
                };
                close_level(owner, body, around)
            }
            None => close_outermost(alloc, function, body, functions),
        }
    }
}

impl Around {
    /// What stands around the next statement, after one more.
    pub fn after(self, ended: Ended) -> Outcome<Around>
        ensures line { IfOk result (λ made. made.line ≡ self.line) }
        ensures levels { IfOk result (λ made. made.levels ≡ self.levels) }
        ensures before { IfOk result (λ made. map statement_view made.before.items
            ≡ map statement_view self.before.items ++ (ended_view ended, self.line) ∷ []) }
    {
        let Around {
            line,
            before,
            levels,
        } = self;
        match with_statement(before, ended, line) {
            Ok(before) => Ok(Around {
                line,
                before,
                levels,
            }),
            Err(error) => Err(error),
        }
    }

    /// After the left brace of a statement.
    pub fn open(self, alloc: Global, owner: Owner) -> Outcome<ScriptStep>
        ensures { Steps result (machine.goes (machine.at machine.statement_next self.line []
            (inner self (machine.level (owner_view owner))))) }
    {
        let Around {
            line,
            before,
            levels,
        } = self;
        let level = Level {
            owner,
            line,
            before,
        };
        match levels.with(level) {
            Ok(levels) => {
                let before = Vec::new(alloc);
                let inside = Around {
                    line,
                    before,
                    levels,
                };
                Ok(goes(StatementState::StatementNext, inside))
            }
            Err(error) => Err(error),
        }
    }

    /// After the left brace of a function.
    #[tactic(auto, using(crate::proofs::LevelLemmas::levels_none))]
    pub fn open_function(self, alloc: Global, signature: Signature) -> ScriptStep
        ensures { step_view result ≡ machine.goes (machine.at machine.statement_next self.line []
            (outer self (machine.in_function signature.name signature.params.items))) }
    {
        let Around {
            line,
            before,
            levels,
        } = self;
        let function = Some(OpenFunction {
            signature,
            line,
            before,
        });
        let levels = Levels {
            inner: Vec::new(alloc),
            function,
            functions: levels.into_functions(),
        };
        let before = Vec::new(alloc);
        let inside = Around {
            line,
            before,
            levels,
        };
        goes(StatementState::StatementNext, inside)
    }

    /// The right brace, after the statements so far.
    pub fn close(self, alloc: Global) -> Outcome<ScriptStep>
        ensures { Steps result (machine.close_by (map statement_view self.before.items) (levels_view self.levels)) }
    {
        let Around {
            line: _,
            before,
            levels,
        } = self;
        levels.close(alloc, before)
    }

    /// The end of the script, after the statements so far.
    #[tactic(auto, using(crate::proofs::LevelLemmas::top_within, crate::proofs::LevelLemmas::no_end))]
    pub fn end(self) -> ScriptStep
        ensures { step_view result ≡ machine.end_by (map statement_view self.before.items) (levels_view self.levels) }
    {
        if self.levels.depth() > 0 {
            return refused(self);
        }
        let Around {
            line: _,
            before: statements,
            levels,
        } = self;
        let functions = levels.into_functions();
        ScriptStep::Whole(Script {
            functions,
            statements,
        })
    }
}
