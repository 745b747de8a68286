// The printer: a tree becomes a text that has this tree.
ghost use Rattle.std.specs.List.{list_any};
ghost use Rattle.std.specs.Prelude.{◌≡◌, ◌==◌, ◌<◌, ◌++◌, ◌∷◌, [], map, length, codes, true, option_map, OnOk, IfOk};
ghost use Rattle.avs_lex.specs.Spelling.{spelling};
ghost use Rattle.avs_lex.specs.Written.{written};
ghost use Rattle.avs_lex.specs.declared.token.TokenKind.TheVariants as k;
ghost use Rattle.avs_print.specs.Printed as p;
ghost use Rattle.avs_print.specs.Printed.{Appends, EndsLine};
ghost use Rattle.avs_tree.specs.Grammar.{truth as truth_of};
ghost use Rattle.avs_tree.specs.Tree.{else_};
ghost use Rattle.avs_tree.specs.View.{expr_view, arg_view, method_call_view, step_view, args_of, method_calls_of, steps_of, kind_view, arm_view, statement_view, arms_of, block_view, function_view, script_view};

use avs_tree::{
    Arg, Arm, DotCall, Expr, Function, Keyword, Operator, Parameter, Script, Statement,
    StatementKind, Step,
};
use fv_io::Text;
use itoa::Buffer;
use std::alloc::{AllocError, Global};
use std::marker::Model;

/// A text that grows word by word.
#[derive(Drop)]
pub struct Printer {
    text: String,
}

impl Model for Printer {
    ghost use Rattle.std.specs.Prelude.{List, ℕ, string_bytes};

    ghost Value = { List ℕ };

    ghost view = { λ t. string_bytes t.text };
}

fn operator_text(op: Operator) -> &'static str
    ensures { result.now ≡ spelling (p.operator_kind op) }
{
    match op {
        Operator::Or => "||",
        Operator::And => "&&",
        Operator::Equal => "==",
        Operator::NotEqual => "!=",
        Operator::Less => "<",
        Operator::LessEqual => "<=",
        Operator::Greater => ">",
        Operator::GreaterEqual => ">=",
        Operator::Plus => "+",
        Operator::Minus => "-",
        Operator::PlusPlus => "++",
        Operator::Times => "*",
        Operator::Divide => "/",
        Operator::Remainder => "%",
    }
}

fn truth_keyword(truth: bool) -> Keyword
    ensures { result ≡ truth_of truth }
{
    if truth { Keyword::True } else { Keyword::False }
}

fn has_quote(text: &str) -> bool
    ensures { result ≡ list_any (λ c. c == 34) text.now }
{
    text.as_bytes().iter().any(|c| *c == b'"')
}

// The quotes around a string.
fn quotes_for(text: &str) -> &'static str
    ensures { result.now ≡ p.quotes_for text.now }
{
    if has_quote(text) { "\"\"\"" } else { "\"" }
}

impl Printer {
    // Puts a word and a blank.
    fn put(&mut self, word: &str) -> Result<(), AllocError>
        ensures { OnOk result (self.new ≡ self.old ++ (word.now ++ 32 ∷ [])) }
    {
        self.text.push_str(word)?;
        self.text.push(' ')?;
        Ok(())
    }

    // The comma before an element of a list, but for the first.
    fn comma(&mut self, first: bool) -> Result<(), AllocError>
        ensures { OnOk result (Appends (p.comma_words first) self.old self.new) }
    {
        if first {
            return Ok(());
        }
        self.put(",")
    }

    // The `else` before an arm, but for the first.
    fn otherwise(&mut self, first: bool) -> Result<(), AllocError>
        ensures { OnOk result (Appends (p.else_word first) self.old self.new) }
    {
        if first {
            return Ok(());
        }
        self.put(Keyword::Else.word())
    }

    fn label(&mut self, name: &Option<Text>) -> Result<(), AllocError>
        ensures { OnOk result (Appends (p.label_words name.now) self.old self.new) }
    {
        match name {
            None => Ok(()),
            Some(name) => {
                self.put(name.as_str())?;
                self.put("=")
            }
        }
    }

    fn digit(&mut self, digit: u32) -> Result<(), AllocError>
        requires { digit < 16 }
        ensures { OnOk result (self.new ≡ self.old ++ p.hexadecimal_digit digit ∷ []) }
    {
        let code = if digit < 10 {
            48 + digit as u8
        } else {
            55 + digit as u8
        };
        self.text.push(code as char)?;
        Ok(())
    }

    // The 8 hexadecimal digits of 32 bits.
    fn half(&mut self, bits: u32) -> Result<(), AllocError>
        ensures { OnOk result (self.new ≡ self.old ++ p.half bits) }
    {
        self.digit(bits / 0x1000_0000 % 16)?;
        self.digit(bits / 0x100_0000 % 16)?;
        self.digit(bits / 0x10_0000 % 16)?;
        self.digit(bits / 0x1_0000 % 16)?;
        self.digit(bits / 0x1000 % 16)?;
        self.digit(bits / 0x100 % 16)?;
        self.digit(bits / 0x10 % 16)?;
        self.digit(bits % 16)
    }

    // The 16 hexadecimal digits of 64 bits.
    fn hexadecimal(&mut self, bits: u64) -> Result<(), AllocError>
        ensures { OnOk result (self.new ≡ self.old ++ p.hexadecimal bits) }
    {
        self.half((bits / 0x1_0000_0000) as u32)?;
        self.half((bits % 0x1_0000_0000) as u32)
    }

    fn number(&mut self, number: i64) -> Result<(), AllocError>
        ensures { OnOk result (self.new ≡ self.old ++ (p.number number ++ 32 ∷ [])) }
    {
        if number >= 0 {
            let mut digits = Buffer::new();
            return self.put(digits.format(number as u64));
        }
        self.text.push('$')?;
        self.hexadecimal(number.cast_unsigned())?;
        self.text.push(' ')?;
        Ok(())
    }

    // A string between quotes.
    fn string(&mut self, text: &str) -> Result<(), AllocError>
        ensures { OnOk result (self.new ≡ self.old ++ (p.quoted text.now ++ 32 ∷ [])) }
    {
        let quotes = quotes_for(text);
        self.text.push_str(quotes)?;
        self.text.push_str(text)?;
        self.put(quotes)
    }

    #[cycle(print_expression)]
    #[tactic(auto, using(crate::proofs::PrintLemmas::putting))]
    fn expr(&mut self, e: &Expr) -> Result<(), AllocError>
        ensures { OnOk result (Appends (p.expr_words (expr_view e.now)) self.old self.new) }
    {
        match e {
            Expr::Int(number) => self.number(*number),
            Expr::Bool(truth) => self.put(truth_keyword(*truth).word()),
            Expr::Str(text) => self.string(text.as_str()),
            Expr::Name { name, .. } => self.put(name.as_str()),
            Expr::Call { name, args, .. } => {
                self.put(name.as_str())?;
                self.args(args)
            }
            Expr::Dots { first, calls } => {
                self.expr(first)?;
                self.calls(calls)
            }
            Expr::Minus { operand, .. } => self.signed("-", operand),
            Expr::Not { operand, .. } => self.signed("!", operand),
            Expr::Chain { first, rest } => {
                self.expr(first)?;
                self.steps(rest)
            }
            Expr::Compare {
                op,
                left,
                right,
                ..
            } => {
                self.expr(left)?;
                self.signed(operator_text(*op), right)
            }
            Expr::Pick {
                condition,
                yes,
                no,
                ..
            } => {
                self.expr(condition)?;
                self.signed("?", yes)?;
                self.signed(":", no)
            }
            Expr::Group(inside) => self.enclosed(inside),
        }
    }

    // A sign, and the operand after it.
    #[cycle(print_expression)]
    #[tactic(auto, using(crate::proofs::PrintLemmas::putting))]
    fn signed(&mut self, sign: &str, operand: &Expr) -> Result<(), AllocError>
        ensures { OnOk result
            (self.new ≡ self.old ++ (sign.now ++ 32 ∷ written (p.expr_words (expr_view operand.now)))) }
    {
        self.put(sign)?;
        self.expr(operand)
    }

    // An expression in parentheses.
    #[cycle(print_expression)]
    #[tactic(auto, using(crate::proofs::PrintLemmas::putting))]
    fn enclosed(&mut self, e: &Expr) -> Result<(), AllocError>
        ensures { OnOk result (Appends (p.condition_words (expr_view e.now)) self.old self.new) }
    {
        self.put("(")?;
        self.expr(e)?;
        self.put(")")
    }

    // The arguments with their parentheses.
    #[cycle(print_expression)]
    #[tactic(auto, using(crate::proofs::PrintLemmas::putting))]
    fn args(&mut self, args: &[Arg]) -> Result<(), AllocError>
        ensures { OnOk result (Appends (p.punctuation k.LeftParen ∷ (p.args_words true
            (args_of (map arg_view args.now)) ++ p.punctuation k.RightParen ∷ [])) self.old self.new) }
    {
        self.put("(")?;
        self.arg_list(args)?;
        self.put(")")
    }

    #[cycle(print_expression)]
    #[tactic(auto, using(crate::proofs::PrintLemmas::putting, crate::proofs::PrintLemmas::args_more))]
    fn arg_list(&mut self, args: &[Arg]) -> Result<(), AllocError>
        ensures { OnOk result (Appends (p.args_words true (args_of (map arg_view args.now))) self.old self.new) }
    {
        let mut first = true;
        for arg in args {
            self.comma(first)?;
            self.label(&arg.name)?;
            self.expr(&arg.value)?;
            first = false;
        }
        Ok(())
    }

    #[cycle(print_expression)]
    #[tactic(auto, using(crate::proofs::PrintLemmas::putting))]
    fn call(&mut self, call: &DotCall) -> Result<(), AllocError>
        ensures { OnOk result
            (Appends (p.method_calls_words (method_calls_of (method_call_view call.now ∷ []))) self.old self.new) }
    {
        self.put(".")?;
        self.put(call.name.as_str())?;
        match &call.args {
            Some(args) => self.args(args),
            None => Ok(()),
        }
    }

    #[cycle(print_expression)]
    #[tactic(auto, using(crate::proofs::PrintLemmas::putting, crate::proofs::PrintLemmas::method_calls_more, crate::proofs::PrintLemmas::method_calls_one))]
    fn calls(&mut self, calls: &[DotCall]) -> Result<(), AllocError>
        ensures { OnOk result
            (Appends (p.method_calls_words (method_calls_of (map method_call_view calls.now))) self.old self.new) }
    {
        for call in calls {
            self.call(call)?;
        }
        Ok(())
    }

    #[cycle(print_expression)]
    #[tactic(auto, using(crate::proofs::PrintLemmas::putting, crate::proofs::PrintLemmas::steps_more))]
    fn steps(&mut self, steps: &[Step]) -> Result<(), AllocError>
        ensures { OnOk result (Appends (p.steps_words (steps_of (map step_view steps.now))) self.old self.new) }
    {
        for step in steps {
            self.put(operator_text(step.op))?;
            self.expr(&step.operand)?;
        }
        Ok(())
    }

    // Ends the line after the words that were put since the text had this size: a newline replaces the last blank.
    fn end_line(&mut self, start: usize) -> Result<(), AllocError>
        ensures { OnOk result (EndsLine start self.old self.new) }
    {
        let size = self.text.len();
        if size <= start || self.text.as_bytes()[size - 1] != b' ' {
            return Ok(());
        }
        self.text.truncate(size - 1);
        self.text.push('\n')?;
        Ok(())
    }

    fn size(&self) -> usize
        ensures { result ≡ length self.now }
    {
        self.text.len()
    }

    // `name = expression`.
    #[tactic(auto, using(crate::proofs::PrintLemmas::putting))]
    fn assignment(&mut self, name: &Text, value: &Expr) -> Result<(), AllocError>
        ensures { OnOk result (Appends
            (p.ident name.now ∷ p.punctuation k.Assign ∷ p.expr_words (expr_view value.now)) self.old self.new) }
    {
        self.put(name.as_str())?;
        self.put("=")?;
        self.expr(value)
    }

    #[tactic(auto, using(crate::proofs::PrintLemmas::putting))]
    fn for_step(&mut self, step: &Option<Expr>) -> Result<(), AllocError>
        ensures { OnOk result (Appends (p.step_words (option_map expr_view step.now)) self.old self.new) }
    {
        match step {
            None => Ok(()),
            Some(step) => {
                self.put(",")?;
                self.expr(step)
            }
        }
    }

    #[tactic(auto, using(crate::proofs::PrintLemmas::putting))]
    fn for_head(
        &mut self,
        name: &Text,
        first: &Expr,
        last: &Expr,
        step: &Option<Expr>,
    ) -> Result<(), AllocError>
        ensures { OnOk result (Appends (p.head_words name.now (expr_view first.now)
            (expr_view last.now) (option_map expr_view step.now)) self.old self.new) }
    {
        self.put("(")?;
        self.assignment(name, first)?;
        self.put(",")?;
        self.expr(last)?;
        self.for_step(step)?;
        self.put(")")?;
        Ok(())
    }

    #[cycle(print_statement)]
    #[tactic(auto, using(crate::proofs::PrintLemmas::putting_statements))]
    fn kind(&mut self, kind: &StatementKind) -> Result<(), AllocError>
        ensures { OnOk result (Appends (p.kind_words (kind_view kind.now)) self.old self.new) }
    {
        match kind {
            StatementKind::Global { name, value } => {
                self.put(Keyword::Global.word())?;
                self.assignment(name, value)
            }
            StatementKind::Assign { name, value } => self.assignment(name, value),
            StatementKind::Return(value) => {
                self.put(Keyword::Return.word())?;
                self.expr(value)
            }
            StatementKind::If { arms, other } => {
                self.arms(arms)?;
                match other {
                    None => Ok(()),
                    Some(body) => self.last_arm(body),
                }
            }
            StatementKind::While { condition, body } => {
                self.put(Keyword::While.word())?;
                self.enclosed(condition)?;
                self.braces(body)
            }
            StatementKind::For {
                name,
                first,
                last,
                step,
                body,
            } => {
                self.put(Keyword::For.word())?;
                self.for_head(name, first, last, step)?;
                self.braces(body)
            }
            StatementKind::Value(value) => self.expr(value),
        }
    }

    // `if` with its condition and body.
    #[cycle(print_statement)]
    #[tactic(auto, using(crate::proofs::PrintLemmas::putting_statements))]
    fn arm(&mut self, arm: &Arm) -> Result<(), AllocError>
        ensures { OnOk result (Appends (p.arms_words true (arms_of (arm_view arm.now ∷ []))) self.old self.new) }
    {
        self.put(Keyword::If.word())?;
        self.enclosed(&arm.condition)?;
        self.braces(&arm.body)
    }

    #[cycle(print_statement)]
    #[tactic(auto, using(crate::proofs::PrintLemmas::putting_statements, crate::proofs::PrintLemmas::arms_more, crate::proofs::PrintLemmas::arms_one))]
    fn arms(&mut self, arms: &[Arm]) -> Result<(), AllocError>
        ensures { OnOk result (Appends (p.arms_words true (arms_of (map arm_view arms.now))) self.old self.new) }
    {
        let mut first = true;
        for arm in arms {
            self.otherwise(first)?;
            self.arm(arm)?;
            first = false;
        }
        Ok(())
    }

    // `else` with its body.
    #[cycle(print_statement)]
    #[tactic(auto, using(crate::proofs::PrintLemmas::putting_statements))]
    fn last_arm(&mut self, body: &[Statement]) -> Result<(), AllocError>
        ensures { OnOk result (Appends (p.else_words (else_ (block_view body.now))) self.old self.new) }
    {
        self.put(Keyword::Else.word())?;
        self.braces(body)
    }

    // Statements with their braces.
    #[cycle(print_statement)]
    #[tactic(auto, using(crate::proofs::PrintLemmas::putting_statements))]
    fn braces(&mut self, body: &[Statement]) -> Result<(), AllocError>
        ensures { OnOk result (Appends (p.braces_words (p.block_words (block_view body.now))) self.old self.new) }
    {
        self.put("{")?;
        self.block(body)?;
        self.put("}")?;
        Ok(())
    }

    #[cycle(print_statement)]
    #[tactic(auto, using(crate::proofs::PrintLemmas::putting_statements, crate::proofs::PrintLemmas::block_more))]
    fn block(&mut self, body: &[Statement]) -> Result<(), AllocError>
        ensures { OnOk result (Appends (p.block_words (block_view body.now)) self.old self.new) }
    {
        for statement in body {
            self.statement(statement)?;
        }
        Ok(())
    }

    #[cycle(print_statement)]
    #[tactic(auto, using(crate::proofs::PrintLemmas::putting_statements))]
    fn statement(&mut self, statement: &Statement) -> Result<(), AllocError>
        ensures { OnOk result (Appends (p.ended (p.kind_words (statement_view statement.now).0)) self.old self.new) }
    {
        let start = self.size();
        self.kind(&statement.kind)?;
        self.end_line(start)?;
        Ok(())
    }

    fn param_name(&mut self, param: &Parameter) -> Result<(), AllocError>
        ensures { OnOk result (Appends (p.param_name param.now.optional param.now.name ∷ []) self.old self.new) }
    {
        if param.optional {
            return self.string(param.name.as_str());
        }
        self.put(param.name.as_str())
    }

    #[tactic(auto, using(crate::proofs::PrintLemmas::putting, crate::proofs::PrintLemmas::params_more))]
    fn params(&mut self, params: &[Parameter]) -> Result<(), AllocError>
        ensures { OnOk result (Appends (p.params_words true params.now) self.old self.new) }
    {
        let mut first = true;
        for param in params {
            self.comma(first)?;
            self.put(param.word.word())?;
            self.param_name(param)?;
            first = false;
        }
        Ok(())
    }

    #[tactic(auto, using(crate::proofs::PrintLemmas::putting))]
    fn function_words(&mut self, function: &Function) -> Result<(), AllocError>
        ensures { OnOk result (Appends (p.function_words (function_view function.now)) self.old self.new) }
    {
        self.put(Keyword::Function.word())?;
        self.put(function.name.as_str())?;
        self.put("(")?;
        self.params(&function.params)?;
        self.put(")")?;
        self.braces(&function.body)
    }

    fn function(&mut self, function: &Function) -> Result<(), AllocError>
        ensures { OnOk result (Appends (p.ended (p.function_words (function_view function.now))) self.old self.new) }
    {
        let start = self.size();
        self.function_words(function)?;
        self.end_line(start)?;
        Ok(())
    }

    #[tactic(auto, using(crate::proofs::PrintLemmas::putting, crate::proofs::PrintLemmas::functions_more))]
    fn functions(&mut self, functions: &[Function]) -> Result<(), AllocError>
        ensures { OnOk result (Appends (p.functions_words (map function_view functions.now)) self.old self.new) }
    {
        for function in functions {
            self.function(function)?;
        }
        Ok(())
    }

    #[tactic(auto, using(crate::proofs::PrintLemmas::putting))]
    fn script(&mut self, script: &Script) -> Result<(), AllocError>
        ensures { OnOk result (Appends (p.script_words (script_view script.now)) self.old self.new) }
    {
        self.functions(&script.functions)?;
        self.block(&script.statements)
    }
}

/// The text of a script: its functions and then its statements, each with a newline after it. An `Err` is out of memory.
pub fn print(alloc: Global, script: &Script) -> Result<Text, AllocError>
    ensures { IfOk result (λ text. text ≡ p.printed (script_view script.now)) }
{
    let mut printer = Printer {
        text: String::new(alloc),
    };
    printer.script(script)?;
    Ok(Text::from(printer.text))
}
