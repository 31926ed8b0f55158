//! The canonical text of a program.
#![tactic(auto, using(crate::proofs::Printed::by_append))]

ghost use Rattle.std.specs.Prelude.{◌≡◌, ◌∷◌, [], ◌++◌, ◌-◌, ◌<◌, true, false, map, IfOk, OnOk, string_bytes, List, Result, ℕ, length, ◌≤◌};
ghost use Rattle.model_tokens.specs.declared.token.Token.TheVariants as token;
ghost use Rattle.model_tokens.specs.declared.token.Word.TheVariants as word;
ghost use Rattle.model_tokens.specs.declared.token.Symbol.TheVariants as symbol;
ghost use Rattle.model_tokens.specs.Spelling.{spelled_symbol as meant_symbol, spelled_word as meant_word};
ghost use Rattle.model_tree.specs.Tree.{ProgramTree};
ghost use Rattle.model_tree.specs.declared.tree.Class.{Class as Held};
ghost use Rattle.model_lang.specs.declared.fault.LangFault.{LangFault};
ghost use Rattle.model_tree.specs.TreeView.{expression_tree, expression_trees, statement_tree, statement_trees, method_tree, class_tree, program_tree};
ghost use Rattle.model_tree.specs.Grammar.{line, operator_line as number_of, left_of as number_left_of, op_symbol as meant_op, sign_symbol as meant_sign, in_round, in_square, in_braces, phrase_spelling, args_spelling, end_spelling, action_spelling, block_spelling, further_spelling, params_spelling, method_spelling, methods_spelling, fields_spelling, class_spelling};
ghost use Rattle.model_tree.specs.Program.{IsRead, IsProgram};
ghost use Rattle.model_lang.specs.Answer.{Parses};
ghost use Rattle.model_print.specs.Canonical.{at_line, phrase_of, phrases_of, action_of, block_of, method_form, class_form, canonical_tokens, canonical_text};
ghost use Rattle.model_print.specs.Printing.{with_gap, with_token, with_tokens, level_number, GivesAgain};

use model_lang::one_reading;
use model_tokens::{Symbol, Word, push_literal};
use model_tree::{BinaryOp, Class, Expr, Method, Program, Stmt, UnaryOp};
use std::alloc::Global;
use std::marker::Model;
use tea_base::{Blob, Text, WantOfMemory};

/// The canonical text of a program: its tokens in order, with round brackets exactly round each part that would be grouped
/// otherwise, and one space exactly between two names, words or numbers.
#[tactic(auto, using(crate::proofs::PrintedForms::by_whole))]
pub fn print(alloc: Global, program: &Program) -> Result<Blob, WantOfMemory>
    ensures text { IfOk result (λ blob. blob ≡ canonical_text (program_tree program.now)) }
    ensures read { IfOk result (λ blob. IsRead blob (program_tree program.now)) }
{
    let mut printer = Printer::new(alloc);
    printer.program(program.classes())?;
    Ok(printer.into_blob())
}

/// `parse` of the canonical text of a program gives the program again, where memory lasts.
pub fn parses_again()
    ensures { (tree : ProgramTree) (read : Result (List Held) LangFault) → IsProgram tree
        → Parses read (canonical_text tree) → GivesAgain tree read }
{
    one_reading();
}

/// No text of a program is shorter than the canonical one.
pub fn is_shortest()
    ensures { (text : List ℕ) (tree : ProgramTree) → IsRead text tree → length (canonical_text tree) ≤ length text }
{}

/// A line of the grammar for expressions, from the tightest.
#[derive(Clone, Copy, Debug, PartialEq, Eq)]
enum Level {
    Post,
    Unary,
    Term,
    Sum,
    Relation,
    And,
    Or,
}

impl Level {
    /// Its number, from the tightest.
    fn number(self) -> u8
        ensures { result ≡ level_number self }
    {
        match self {
            Level::Post => 0,
            Level::Unary => 1,
            Level::Term => 2,
            Level::Sum => 3,
            Level::Relation => 4,
            Level::And => 5,
            Level::Or => 6,
        }
    }
}

/// The line on which an operator stands.
fn operator_level(op: BinaryOp) -> Level
    ensures { level_number result ≡ number_of op }
{
    match op {
        BinaryOp::Or => Level::Or,
        BinaryOp::And => Level::And,
        BinaryOp::Same
        | BinaryOp::Differs
        | BinaryOp::Less
        | BinaryOp::AtMost
        | BinaryOp::Greater
        | BinaryOp::AtLeast => Level::Relation,
        BinaryOp::Plus | BinaryOp::Minus => Level::Sum,
        BinaryOp::Times | BinaryOp::Divide | BinaryOp::Rest => Level::Term,
    }
}

/// The loosest line that stands on the left of an operator without brackets.
fn left_of(op: BinaryOp) -> Level
    ensures { level_number result ≡ number_left_of op }
{
    match op {
        BinaryOp::Or => Level::Or,
        BinaryOp::And => Level::And,
        BinaryOp::Same
        | BinaryOp::Differs
        | BinaryOp::Less
        | BinaryOp::AtMost
        | BinaryOp::Greater
        | BinaryOp::AtLeast
        | BinaryOp::Plus
        | BinaryOp::Minus => Level::Sum,
        BinaryOp::Times | BinaryOp::Divide | BinaryOp::Rest => Level::Term,
    }
}

/// The loosest line that stands on the right of an operator without brackets.
fn right_of(op: BinaryOp) -> Level
    ensures { level_number result ≡ number_of op - 1 }
{
    match op {
        BinaryOp::Or => Level::And,
        BinaryOp::And => Level::Relation,
        BinaryOp::Same
        | BinaryOp::Differs
        | BinaryOp::Less
        | BinaryOp::AtMost
        | BinaryOp::Greater
        | BinaryOp::AtLeast => Level::Sum,
        BinaryOp::Plus | BinaryOp::Minus => Level::Term,
        BinaryOp::Times | BinaryOp::Divide | BinaryOp::Rest => Level::Unary,
    }
}

fn level_of(expr: &Expr) -> Level
    ensures { level_number result ≡ line (phrase_of (expression_tree expr.now)) }
{
    match expr {
        Expr::Unary { .. } => Level::Unary,
        Expr::Binary { op, .. } => operator_level(*op),
        Expr::Nil
        | Expr::Bool(_)
        | Expr::Int(_)
        | Expr::Text(_)
        | Expr::This
        | Expr::Local { .. }
        | Expr::Field { .. }
        | Expr::List { .. }
        | Expr::Builtin { .. }
        | Expr::Call { .. }
        | Expr::Future { .. }
        | Expr::Create { .. } => Level::Post,
    }
}

fn op_symbol(op: BinaryOp) -> Symbol
    ensures { result ≡ meant_op op }
{
    match op {
        BinaryOp::Or => Symbol::Or,
        BinaryOp::And => Symbol::And,
        BinaryOp::Same => Symbol::Same,
        BinaryOp::Differs => Symbol::Differs,
        BinaryOp::Less => Symbol::Less,
        BinaryOp::AtMost => Symbol::AtMost,
        BinaryOp::Greater => Symbol::Greater,
        BinaryOp::AtLeast => Symbol::AtLeast,
        BinaryOp::Plus => Symbol::Plus,
        BinaryOp::Minus => Symbol::Minus,
        BinaryOp::Times => Symbol::Times,
        BinaryOp::Divide => Symbol::Divide,
        BinaryOp::Rest => Symbol::Rest,
    }
}

fn sign_symbol(op: UnaryOp) -> Symbol
    ensures { result ≡ meant_sign op }
{
    match op {
        UnaryOp::Minus => Symbol::Minus,
        UnaryOp::Not => Symbol::Not,
    }
}

fn symbol_text(symbol: Symbol) -> &'static str
    ensures { result.now ≡ meant_symbol symbol }
{
    match symbol {
        Symbol::OpenBrace => "{",
        Symbol::CloseBrace => "}",
        Symbol::OpenRound => "(",
        Symbol::CloseRound => ")",
        Symbol::OpenSquare => "[",
        Symbol::CloseSquare => "]",
        Symbol::Comma => ",",
        Symbol::Semicolon => ";",
        Symbol::Dot => ".",
        Symbol::Assign => "=",
        Symbol::Same => "==",
        Symbol::Differs => "!=",
        Symbol::Less => "<",
        Symbol::AtMost => "<=",
        Symbol::Greater => ">",
        Symbol::AtLeast => ">=",
        Symbol::Plus => "+",
        Symbol::Minus => "-",
        Symbol::Times => "*",
        Symbol::Divide => "/",
        Symbol::Rest => "%",
        Symbol::Not => "!",
        Symbol::And => "&&",
        Symbol::Or => "||",
    }
}

fn word_text(word: Word) -> &'static str
    ensures { result.now ≡ meant_word word }
{
    match word {
        Word::Class => "class",
        Word::Field => "field",
        Word::Let => "let",
        Word::If => "if",
        Word::Else => "else",
        Word::While => "while",
        Word::Return => "return",
        Word::This => "this",
        Word::Nil => "nil",
        Word::True => "true",
        Word::False => "false",
        Word::Create => "create",
        Word::Future => "future",
    }
}

/// A text that is printed token by token. Contracts see its bytes, and whether its last token is a name, a word or a number.
#[derive(Drop)]
struct Printer {
    alloc: Global,
    text: String,
    worded: bool,
}

impl Model for Printer {
    ghost use Rattle.std.specs.Prelude.{List, ℕ, Bool, string_bytes};

    ghost Value = { List ℕ × Bool };

    ghost view = { λ printer. (string_bytes printer.text, printer.worded) };
}

impl Printer {
    fn new(alloc: Global) -> Printer
        ensures { result ≡ ([], false) }
    {
        Printer {
            alloc,
            text: String::new(alloc),
            worded: false,
        }
    }

    fn into_blob(self) -> Blob
        ensures { result ≡ self.0 }
    {
        Blob::from_vec(self.text.into_bytes())
    }

    // ---- tokens

    /// A name, a word or a number, behind a space where another stands before it.
    fn push_word(&mut self, bytes: &str) -> Result<(), WantOfMemory>
        ensures { OnOk result (self.new ≡ with_gap self.old true bytes.now) }
    {
        if self.worded {
            self.text.push_str(" ")?;
        }
        self.text.push_str(bytes)?;
        self.worded = true;
        Ok(())
    }

    #[tactic(auto, unfolding(crate::specs::Printing::with_token))]
    fn name(&mut self, name: &Text) -> Result<(), WantOfMemory>
        ensures { OnOk result (self.new ≡ with_token self.old (token.Name name.now)) }
    {
        self.push_word(name.as_str())
    }

    #[tactic(auto, unfolding(crate::specs::Printing::with_token))]
    fn class_name(&mut self, name: &Text) -> Result<(), WantOfMemory>
        ensures { OnOk result (self.new ≡ with_token self.old (token.ClassName name.now)) }
    {
        self.push_word(name.as_str())
    }

    #[tactic(auto, unfolding(crate::specs::Printing::with_token))]
    fn number(&mut self, number: i64) -> Result<(), WantOfMemory>
        ensures { OnOk result (self.new ≡ with_token self.old (token.Number number)) }
    {
        let digits = number.to_string(self.alloc)?;
        self.push_word(digits.as_str())
    }

    #[tactic(auto, unfolding(crate::specs::Printing::with_token))]
    fn word(&mut self, word: Word) -> Result<(), WantOfMemory>
        ensures { OnOk result (self.new ≡ with_token self.old (token.Word word)) }
    {
        self.push_word(word_text(word))
    }

    #[tactic(auto, unfolding(crate::specs::Printing::with_token))]
    fn symbol(&mut self, symbol: Symbol) -> Result<(), WantOfMemory>
        ensures { OnOk result (self.new ≡ with_token self.old (token.Symbol symbol)) }
    {
        self.text.push_str(symbol_text(symbol))?;
        self.worded = false;
        Ok(())
    }

    #[tactic(auto, unfolding(crate::specs::Printing::with_token))]
    fn literal(&mut self, text: &Text) -> Result<(), WantOfMemory>
        ensures { OnOk result (self.new ≡ with_token self.old (token.Text text.now)) }
    {
        push_literal(&mut self.text, text.as_str())?;
        self.worded = false;
        Ok(())
    }

    // ---- expressions

    /// An expression, in brackets where none of its line may stand.
    #[cycle(print)]
    fn at_level(&mut self, wanted: Level, expr: &Expr) -> Result<(), WantOfMemory>
        ensures { OnOk result (self.new
            ≡ with_tokens self.old (phrase_spelling
            (at_line (level_number wanted) (phrase_of (expression_tree expr.now))))) }
    {
        if level_of(expr).number() <= wanted.number() {
            self.phrase(expr)
        } else {
            self.brackets(expr)
        }
    }

    /// An expression in round brackets.
    #[cycle(print)]
    fn brackets(&mut self, expr: &Expr) -> Result<(), WantOfMemory>
        ensures { OnOk result (self.new
            ≡ with_tokens self.old (in_round (phrase_spelling (phrase_of (expression_tree expr.now))))) }
    {
        self.symbol(Symbol::OpenRound)?;
        self.phrase(expr)?;
        self.symbol(Symbol::CloseRound)
    }

    #[cycle(print)]
    fn phrase(&mut self, expr: &Expr) -> Result<(), WantOfMemory>
        ensures { OnOk result (self.new
            ≡ with_tokens self.old (phrase_spelling (phrase_of (expression_tree expr.now)))) }
    {
        match expr {
            Expr::Nil => self.word(Word::Nil),
            Expr::Bool(true) => self.word(Word::True),
            Expr::Bool(false) => self.word(Word::False),
            Expr::Int(number) => self.number(*number),
            Expr::Text(text) => self.literal(text),
            Expr::This => self.word(Word::This),
            Expr::Local { name } => self.name(name),
            Expr::Field { name } => self.field(name),
            Expr::List { items } => self.list(items),
            Expr::Unary { op, of } => {
                self.symbol(sign_symbol(*op))?;
                self.at_level(Level::Unary, of)
            }
            Expr::Binary { op, left, right } => {
                self.at_level(left_of(*op), left)?;
                self.symbol(op_symbol(*op))?;
                self.at_level(right_of(*op), right)
            }
            Expr::Builtin { name, args } => self.call(name, args),
            Expr::Call { object, name, args } => {
                self.at_level(Level::Post, object)?;
                self.symbol(Symbol::Dot)?;
                self.call(name, args)
            }
            Expr::Future {
                object,
                delay,
                name,
                args,
            } => {
                self.at_level(Level::Post, object)?;
                self.delay(delay)?;
                self.call(name, args)
            }
            Expr::Create { class, options } => {
                self.create_opening(class)?;
                self.phrase(options)?;
                self.symbol(Symbol::CloseRound)
            }
        }
    }

    /// `this.name`
    fn field(&mut self, name: &Text) -> Result<(), WantOfMemory>
        ensures { OnOk result (self.new
            ≡ with_tokens self.old (token.Word word.This ∷ token.Symbol symbol.Dot ∷ token.Name name.now ∷ [])) }
    {
        self.word(Word::This)?;
        self.symbol(Symbol::Dot)?;
        self.name(name)
    }

    /// `create(class,`
    fn create_opening(&mut self, class: &Text) -> Result<(), WantOfMemory>
        ensures { OnOk result (self.new
            ≡ with_tokens self.old (token.Word word.Create ∷ token.Symbol symbol.OpenRound ∷ token.ClassName class.now
            ∷ token.Symbol symbol.Comma ∷ [])) }
    {
        self.word(Word::Create)?;
        self.symbol(Symbol::OpenRound)?;
        self.class_name(class)?;
        self.symbol(Symbol::Comma)
    }

    /// `.future(delay).`
    #[cycle(print)]
    fn delay(&mut self, delay: &Expr) -> Result<(), WantOfMemory>
        ensures { OnOk result (self.new
            ≡ with_tokens self.old (token.Symbol symbol.Dot ∷ token.Word word.Future
            ∷ (in_round (phrase_spelling (phrase_of (expression_tree delay.now))) ++ token.Symbol symbol.Dot ∷ []))) }
    {
        self.symbol(Symbol::Dot)?;
        self.word(Word::Future)?;
        self.brackets(delay)?;
        self.symbol(Symbol::Dot)
    }

    /// `name(args)`
    #[cycle(print)]
    fn call(&mut self, name: &Text, args: &[Expr]) -> Result<(), WantOfMemory>
        ensures { OnOk result (self.new
            ≡ with_tokens self.old (token.Name name.now
            ∷ in_round (args_spelling (phrases_of (expression_trees args.now))))) }
    {
        self.name(name)?;
        self.symbol(Symbol::OpenRound)?;
        self.phrases(args)?;
        self.symbol(Symbol::CloseRound)
    }

    /// `[items]`
    #[cycle(print)]
    fn list(&mut self, items: &[Expr]) -> Result<(), WantOfMemory>
        ensures { OnOk result (self.new
            ≡ with_tokens self.old (in_square (args_spelling (phrases_of (expression_trees items.now))))) }
    {
        self.symbol(Symbol::OpenSquare)?;
        self.phrases(items)?;
        self.symbol(Symbol::CloseSquare)
    }

    /// Expressions with commas between them.
    #[cycle(print)]
    fn phrases(&mut self, exprs: &[Expr]) -> Result<(), WantOfMemory>
        ensures { OnOk result (self.new
            ≡ with_tokens self.old (args_spelling (phrases_of (expression_trees exprs.now)))) }
    {
        let Some((first, further)) = exprs.split_first() else {
            return Ok(());
        };
        self.phrase(first)?;
        for expr in further {
            self.symbol(Symbol::Comma)?;
            self.phrase(expr)?;
        }
        Ok(())
    }

    // ---- statements

    /// `value;`
    fn value_end(&mut self, value: &Expr) -> Result<(), WantOfMemory>
        ensures { OnOk result (self.new ≡ with_tokens self.old (end_spelling (phrase_of (expression_tree value.now)))) }
    {
        self.phrase(value)?;
        self.symbol(Symbol::Semicolon)
    }

    /// `name=value;`
    fn assignment(&mut self, name: &Text, value: &Expr) -> Result<(), WantOfMemory>
        ensures { OnOk result (self.new
            ≡ with_tokens self.old (token.Name name.now ∷ token.Symbol symbol.Assign
            ∷ end_spelling (phrase_of (expression_tree value.now)))) }
    {
        self.name(name)?;
        self.symbol(Symbol::Assign)?;
        self.value_end(value)
    }

    /// `word(test)`
    fn test_head(&mut self, word: Word, test: &Expr) -> Result<(), WantOfMemory>
        ensures { OnOk result (self.new
            ≡ with_tokens self.old (token.Word word
            ∷ in_round (phrase_spelling (phrase_of (expression_tree test.now))))) }
    {
        self.word(word)?;
        self.brackets(test)
    }

    #[cycle(statements)]
    fn statement(&mut self, statement: &Stmt) -> Result<(), WantOfMemory>
        ensures { OnOk result (self.new
            ≡ with_tokens self.old (action_spelling (action_of (statement_tree statement.now)))) }
    {
        match statement {
            Stmt::Let { name, value } => {
                self.word(Word::Let)?;
                self.assignment(name, value)
            }
            Stmt::Assign { name, value } => self.assignment(name, value),
            Stmt::SetField { name, value } => {
                self.word(Word::This)?;
                self.symbol(Symbol::Dot)?;
                self.assignment(name, value)
            }
            Stmt::If {
                test,
                yes,
                no: None,
            } => {
                self.test_head(Word::If, test)?;
                self.block(yes)
            }
            Stmt::If {
                test,
                yes,
                no: Some(no),
            } => {
                self.test_head(Word::If, test)?;
                self.block(yes)?;
                self.word(Word::Else)?;
                self.block(no)
            }
            Stmt::While { test, body } => {
                self.test_head(Word::While, test)?;
                self.block(body)
            }
            Stmt::Return { value } => {
                self.word(Word::Return)?;
                self.value_end(value)
            }
            Stmt::Do { value } => self.value_end(value),
        }
    }

    /// Statements in braces.
    #[cycle(statements)]
    fn block(&mut self, statements: &[Stmt]) -> Result<(), WantOfMemory>
        ensures { OnOk result (self.new
            ≡ with_tokens self.old (in_braces (block_spelling (block_of (statement_trees statements.now))))) }
    {
        self.symbol(Symbol::OpenBrace)?;
        self.statements(statements)?;
        self.symbol(Symbol::CloseBrace)
    }

    #[cycle(statements)]
    fn statements(&mut self, statements: &[Stmt]) -> Result<(), WantOfMemory>
        ensures { OnOk result (self.new
            ≡ with_tokens self.old (block_spelling (block_of (statement_trees statements.now)))) }
    {
        for statement in statements {
            self.statement(statement)?;
        }
        Ok(())
    }

    // ---- classes

    /// `,name` of each.
    fn further(&mut self, names: &[Text]) -> Result<(), WantOfMemory>
        ensures { OnOk result (self.new ≡ with_tokens self.old (further_spelling names.now)) }
    {
        for name in names {
            self.symbol(Symbol::Comma)?;
            self.name(name)?;
        }
        Ok(())
    }

    fn params(&mut self, names: &[Text]) -> Result<(), WantOfMemory>
        ensures { OnOk result (self.new ≡ with_tokens self.old (params_spelling names.now)) }
    {
        let Some((first, further)) = names.split_first() else {
            return Ok(());
        };
        self.name(first)?;
        self.further(further)
    }

    fn method(&mut self, method: &Method) -> Result<(), WantOfMemory>
        ensures { OnOk result (self.new
            ≡ with_tokens self.old (method_spelling (method_form (method_tree method.now)))) }
    {
        self.name(&method.name)?;
        self.symbol(Symbol::OpenRound)?;
        self.params(&method.params)?;
        self.symbol(Symbol::CloseRound)?;
        self.block(&method.body)
    }

    fn methods(&mut self, methods: &[Method]) -> Result<(), WantOfMemory>
        ensures { OnOk result (self.new
            ≡ with_tokens self.old (methods_spelling (map method_form (map method_tree methods.now)))) }
    {
        for method in methods {
            self.method(method)?;
        }
        Ok(())
    }

    /// `field name;` of each.
    fn fields(&mut self, names: &[Text]) -> Result<(), WantOfMemory>
        ensures { OnOk result (self.new ≡ with_tokens self.old (fields_spelling names.now)) }
    {
        for name in names {
            self.word(Word::Field)?;
            self.name(name)?;
            self.symbol(Symbol::Semicolon)?;
        }
        Ok(())
    }

    fn class(&mut self, class: &Class) -> Result<(), WantOfMemory>
        ensures { OnOk result (self.new ≡ with_tokens self.old (class_spelling (class_form (class_tree class.now)))) }
    {
        self.word(Word::Class)?;
        self.class_name(&class.name)?;
        self.symbol(Symbol::OpenBrace)?;
        self.fields(&class.fields)?;
        self.methods(&class.methods)?;
        self.symbol(Symbol::CloseBrace)
    }

    fn program(&mut self, classes: &[Class]) -> Result<(), WantOfMemory>
        ensures { OnOk result (self.new ≡ with_tokens self.old (canonical_tokens (program_tree classes.now))) }
    {
        for class in classes {
            self.class(class)?;
        }
        Ok(())
    }
}
