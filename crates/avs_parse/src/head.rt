// What a token does to the head of a function.
ghost use Rattle.std.specs.Prelude.{◌≡◌, [], Some, IfOk};
ghost use Rattle.avs_tree.specs.Lexeme.{type_word_of};
ghost use Rattle.avs_tree.specs.Machine as machine;
ghost use Rattle.avs_frames.specs.ScriptViews.{Steps, head_state_view, outer, step_view};
ghost use Rattle.avs_frames.specs.Seen.{seen};

use avs_frames::{Around, HeadState, Outcome, ScriptStep, Seen, Signature, State, pushed, refused};
use avs_tree::{Parameter, Punctuation, Symbol, TypeWord, is_name, type_word};
use fv_io::Text;

// The head goes on with this.
fn head_goes(here: HeadState, around: Around) -> ScriptStep
    ensures { step_view result ≡ machine.goes (outer around (machine.at_head (head_state_view here))) }
{
    ScriptStep::Goes(State::Head(here, around))
}

// The name of the function.
fn function_name(around: Around, token: Seen<'_>) -> Outcome<ScriptStep>
    ensures { Steps result (outer around (machine.advance_head machine.after_function) (seen token.entry)) }
{
    match token.symbol {
        Symbol::Name => match token.text() {
            Ok(name) => Ok(head_goes(HeadState::AfterName(name), around)),
            Err(error) => Err(error),
        },
        _ => Ok(refused(around)),
    }
}

// The parenthesis after the name.
fn parenthesis(name: Text, around: Around, token: Seen<'_>) -> ScriptStep
    ensures { step_view result ≡ outer around (machine.advance_head (machine.after_function_name name)) (seen token.entry) }
{
    if !token.is(Punctuation::LeftParen) {
        return refused((name, around));
    }
    head_goes(HeadState::Opened(name), around)
}

// The type of a parameter.
fn parameter_type(signature: Signature, must: bool, around: Around, token: Seen<'_>) -> ScriptStep
    ensures { step_view result ≡ outer around (machine.type_by (Some token.entry.symbol)
        (type_word_of token.entry.content.now) signature.name signature.params.items must) }
{
    match (token.symbol, type_word(token.content)) {
        (Symbol::Name, Some(word)) => head_goes(
            HeadState::AfterType(signature, must, word),
            around,
        ),
        _ => refused((signature, around)),
    }
}

// After the left parenthesis: a right one, or the first parameter.
fn first_parameter(name: Text, around: Around, token: Seen<'_>) -> ScriptStep
    ensures { step_view result ≡ outer around (machine.advance_head (machine.head_opened name)) (seen token.entry) }
{
    let params = Vec::new(token.alloc);
    let signature = Signature { name, params };
    if token.is(Punctuation::RightParen) {
        return head_goes(HeadState::BracesNext(signature), around);
    }
    parameter_type(signature, false, around, token)
}

// The function with one more parameter.
fn with_parameter(
    signature: Signature,
    word: TypeWord,
    optional: bool,
    token: Seen<'_>,
) -> Outcome<Signature>
    ensures name { IfOk result (λ made. made.name ≡ signature.name) }
    ensures params { IfOk result (λ made. made.params.items
        ≡ machine.with_parameter signature.params.items word optional token.entry.content.now) }
{
    let parameter = Parameter {
        name: token.text()?,
        word,
        optional,
    };
    let Signature { name, params } = signature;
    let params = pushed(params, parameter)?;
    Ok(Signature { name, params })
}

// After the name of a parameter.
fn parameter(
    signature: Signature,
    word: TypeWord,
    optional: bool,
    around: Around,
    token: Seen<'_>,
) -> Outcome<ScriptStep>
    ensures { Steps result (machine.goes (outer around (machine.at_head (machine.after_parameter signature.name
        (machine.with_parameter signature.params.items word optional token.entry.content.now) optional)))) }
{
    match with_parameter(signature, word, optional, token) {
        Ok(signature) => Ok(head_goes(HeadState::AfterParameter(signature, optional), around)),
        Err(error) => Err(error),
    }
}

// The name of a parameter, or a string that is one where it is optional.
fn parameter_name(
    signature: Signature,
    must: bool,
    word: TypeWord,
    around: Around,
    token: Seen<'_>,
) -> Outcome<ScriptStep>
    ensures { Steps result (outer around (machine.parameter_by (Some token.entry.symbol) token.entry.content.now
        signature.name signature.params.items must word)) }
{
    match token.symbol {
        Symbol::Name if !must => parameter(signature, word, false, around, token),
        Symbol::Str if is_name(token.content) => parameter(signature, word, true, around, token),
        _ => Ok(refused((signature, around))),
    }
}

// After a parameter: a comma or the right parenthesis.
fn after_parameter(signature: Signature, must: bool, around: Around, token: Seen<'_>) -> ScriptStep
    ensures { step_view result ≡ outer around
        (machine.advance_head (machine.after_parameter signature.name signature.params.items must)) (seen token.entry) }
{
    if token.is(Punctuation::Comma) {
        return head_goes(HeadState::ParameterNext(signature, must), around);
    }
    if token.is(Punctuation::RightParen) {
        return head_goes(HeadState::BracesNext(signature), around);
    }
    refused((signature, around))
}

// Newlines and the left brace.
fn body(signature: Signature, around: Around, token: Seen<'_>) -> ScriptStep
    ensures { step_view result ≡ outer around
        (machine.function_body_by (Some token.entry.symbol) signature.name signature.params.items) }
{
    match token.symbol {
        Symbol::Punctuation(Punctuation::Newline) => {
            head_goes(HeadState::BracesNext(signature), around)
        }
        Symbol::Punctuation(Punctuation::LeftBrace) => around.open_function(token.alloc, signature),
        _ => refused((signature, around)),
    }
}

/// What the token does to the head of a function.
pub fn advance_head(here: HeadState, around: Around, token: Seen<'_>) -> Outcome<ScriptStep>
    ensures { Steps result (outer around (machine.advance_head (head_state_view here)) (seen token.entry)) }
{
    match here {
        HeadState::AfterFunction => function_name(around, token),
        HeadState::AfterName(name) => Ok(parenthesis(name, around, token)),
        HeadState::Opened(name) => Ok(first_parameter(name, around, token)),
        HeadState::AfterType(signature, must, word) => {
            parameter_name(signature, must, word, around, token)
        }
        HeadState::AfterParameter(signature, must) => {
            Ok(after_parameter(signature, must, around, token))
        }
        HeadState::ParameterNext(signature, must) => {
            Ok(parameter_type(signature, must, around, token))
        }
        HeadState::BracesNext(signature) => Ok(body(signature, around, token)),
    }
}
