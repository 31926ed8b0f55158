//! Hints on the names of a program: each fault with its place, in the order of the text. The text is in the grammar, so that what a name is can be
//! seen by the tokens around it.
use crate::place::{Source, Span, push_hint};
use crate::syntax::advice;
use crate::tokens::{back, spelling};
use model_tokens::{Token, place_of_token};
use std::alloc::Global;
use tea_base::{Text, WantOfMemory};

/// How many faults of a program have a hint.
const MOST_FAULTS: usize = 20;

/// What a name is.
#[derive(Clone, Copy, Debug, PartialEq, Eq)]
enum Role {
    /// A class, where it begins.
    Class,
    /// A class that is created.
    Created,
    /// A field, where it is declared.
    Field,
    /// A field of the object itself.
    OwnField,
    /// A method, where it is written.
    Method,
    Parameter,
    /// The name of a `let`.
    Let,
    /// A builtin that is called.
    Call,
    /// A method that is called or sent: no rule looks at its name.
    Message,
    Local,
}

/// A token and what is wrong with it.
#[derive(Drop)]
struct NameFault {
    token: usize,
    message: String,
}

/// A walk over the tokens of a program.
#[derive(Drop)]
struct Walk<'a> {
    alloc: Global,
    tokens: &'a [Token],
    /// How many braces are open.
    depth: usize,
    /// The tokens of the names that are in scope.
    scope: Vec<usize>,
    /// How many names were in scope at each open brace.
    blocks: Vec<usize>,
    /// The name of a `let` whose value is read.
    pending: Option<usize>,
    /// The token with which the class begins.
    class: usize,
    faults: Vec<NameFault>,
}

/// The name that a token is.
fn name_of(token: Option<&Token>) -> Option<&Text> {
    match token {
        Some(Token::Name(name) | Token::ClassName(name)) => Some(name),
        _ => None,
    }
}

/// Whether a token is this name.
fn is_named(token: Option<&Token>, name: &str) -> bool {
    match name_of(token) {
        Some(other) => other.as_str() == name,
        None => false,
    }
}

/// What the name at a token is, at so many open braces.
fn role_of(tokens: &[Token], number: usize, depth: usize) -> Role {
    let is_called = spelling(tokens.get(number.saturating_add(1))) == "(";
    match spelling(back(tokens, number, 1)) {
        "class" => Role::Class,
        "field" => Role::Field,
        "let" => Role::Let,
        "." if spelling(back(tokens, number, 2)) == "this" && !is_called => Role::OwnField,
        "." => Role::Message,
        "(" if spelling(back(tokens, number, 2)) == "create" => Role::Created,
        _ if depth == 1 && is_called => Role::Method,
        _ if depth == 1 => Role::Parameter,
        _ if is_called => Role::Call,
        _ => Role::Local,
    }
}

/// Whether a class of this name begins before a token.
fn has_class(tokens: &[Token], name: &str, end: usize) -> bool {
    for number in 0..end.min(tokens.len()) {
        if spelling(back(tokens, number, 1)) == "class" && is_named(tokens.get(number), name) {
            return true;
        }
    }
    false
}

/// The token that is a name with this role, of the class that begins at a token, before another token.
fn member(tokens: &[Token], class: usize, name: &str, role: Role, end: usize) -> Option<usize> {
    let mut depth: usize = 0;
    for number in class..end.min(tokens.len()) {
        match spelling(tokens.get(number)) {
            "{" => depth = depth.saturating_add(1),
            "}" => depth = depth.saturating_sub(1),
            "class" if number > class => return None,
            _ => {
                if is_named(tokens.get(number), name) && role_of(tokens, number, depth) == role {
                    return Some(number);
                }
            }
        }
    }
    None
}

/// With how many equal bytes two names begin.
fn same_front(one: &[u8], other: &[u8]) -> usize {
    let mut count: usize = 0;
    for (a, b) in one.iter().zip(other.iter()) {
        if a != b {
            break;
        }
        count = count.saturating_add(1);
    }
    count
}

/// With how many equal bytes two names end.
fn same_end(one: &[u8], other: &[u8]) -> usize {
    let mut count: usize = 0;
    for (a, b) in one.iter().rev().zip(other.iter().rev()) {
        if a != b {
            break;
        }
        count = count.saturating_add(1);
    }
    count
}

/// Whether two names differ in one letter, or have two letters next to each other in another order.
pub fn are_near(one: &str, other: &str) -> bool {
    let (one, other) = (one.as_bytes(), other.as_bytes());
    let longest = one.len().max(other.len());
    let shortest = one.len().min(other.len());
    if longest < 3 || longest.saturating_sub(shortest) > 1 || one == other {
        return false;
    }
    let front = same_front(one, other);
    let same = front.saturating_add(same_end(one, other));
    let next = front.saturating_add(1);
    let are_turned = one.get(front) == other.get(next) && one.get(next) == other.get(front);
    same.saturating_add(1) >= longest || (same.saturating_add(2) >= longest && are_turned)
}

/// The builtins, each with the number of its arguments.
fn builtin(name: &str) -> Option<usize> {
    match name {
        "now" | "viewCount" | "views" | "sessionId" => Some(0),
        "random"
        | "known"
        | "beKnown"
        | "exists"
        | "destroy"
        | "cancel"
        | "persist"
        | "length"
        | "text"
        | "number" => Some(1),
        "at" | "push" | "concat" | "compare" => Some(2),
        "publish" | "subscribe" | "unsubscribe" | "put" | "slice" => Some(3),
        _ => None,
    }
}

/// The names of the builtins.
const BUILTINS: [&str; 23] = [
    "now",
    "random",
    "viewCount",
    "views",
    "sessionId",
    "known",
    "beKnown",
    "exists",
    "destroy",
    "publish",
    "subscribe",
    "unsubscribe",
    "cancel",
    "persist",
    "length",
    "at",
    "put",
    "push",
    "slice",
    "concat",
    "text",
    "number",
    "compare",
];

/// The builtin whose name is near to this one.
fn near_builtin(name: &str) -> Option<&'static str> {
    for other in &BUILTINS {
        if are_near(name, other) {
            return Some(*other);
        }
    }
    None
}

/// The builtin that does what a name of other languages does.
fn builtin_of_others(name: &str) -> Option<&'static str> {
    match name {
        "len" | "size" | "count" => Some("length"),
        "append" | "add" => Some("push"),
        "str" | "toString" => Some("text"),
        "int" | "parseInt" => Some("number"),
        "emit" | "send" => Some("publish"),
        "on" | "listen" => Some("subscribe"),
        "rand" => Some("random"),
        "join" => Some("concat"),
        _ => near_builtin(name),
    }
}

/// With how many arguments the name at a token is called.
fn arguments(tokens: &[Token], number: usize) -> usize {
    let mut open: usize = 0;
    let mut commas: usize = 0;
    let mut is_empty = true;
    for token in tokens.iter().skip(number.saturating_add(1)) {
        match spelling(Some(token)) {
            "(" | "[" => {
                is_empty = is_empty && open == 0;
                open = open.saturating_add(1);
            }
            ")" | "]" => {
                open = open.saturating_sub(1);
                if open == 0 {
                    break;
                }
            }
            "," if open == 1 => commas = commas.saturating_add(1),
            _ => is_empty = false,
        }
    }
    if is_empty {
        0
    } else {
        commas.saturating_add(1)
    }
}

impl<'a> Walk<'a> {
    fn new(alloc: Global, tokens: &'a [Token]) -> Walk<'a> {
        Walk {
            alloc,
            tokens,
            depth: 0,
            scope: Vec::new(alloc),
            blocks: Vec::new(alloc),
            pending: None,
            class: 0,
            faults: Vec::new(alloc),
        }
    }

    /// Whether a name is in scope.
    fn is_in_scope(&self, name: &str) -> bool {
        for place in &self.scope {
            if is_named(self.tokens.get(*place), name) {
                return true;
            }
        }
        false
    }

    fn push_fault(&mut self, token: usize, message: String) -> Result<(), WantOfMemory> {
        if self.faults.len() < MOST_FAULTS {
            self.faults.push(NameFault { token, message })?;
        }
        Ok(())
    }

    /// Takes the next token.
    fn take(&mut self, number: usize) -> Result<(), WantOfMemory> {
        match self.tokens.get(number) {
            Some(Token::Name(name) | Token::ClassName(name)) => self.take_name(
                number,
                name.as_str(),
            ),
            token => self.take_symbol(spelling(token)),
        }
    }

    fn take_symbol(&mut self, symbol: &str) -> Result<(), WantOfMemory> {
        match symbol {
            "{" => {
                self.depth = self.depth.saturating_add(1);
                self.blocks.push(self.scope.len())?;
            }
            "}" => {
                self.depth = self.depth.saturating_sub(1);
                let kept = self.blocks.pop().unwrap_or(0);
                self.scope.truncate(kept);
            }
            ";" => {
                if let Some(name) = self.pending.take() {
                    self.scope.push(name)?;
                }
            }
            _ => {}
        }
        Ok(())
    }

    fn take_name(&mut self, number: usize, name: &str) -> Result<(), WantOfMemory> {
        let role = role_of(self.tokens, number, self.depth);
        match role {
            Role::Class => {
                self.class = number;
                self.note_twice(number, name, has_class(self.tokens, name, number))
            }
            Role::Field => self.take_member(number, name, role),
            Role::Method => {
                self.scope.truncate(0);
                self.take_member(number, name, role)
            }
            Role::Parameter => {
                self.note_twice(number, name, self.is_in_scope(name))?;
                self.scope.push(number)?;
                Ok(())
            }
            Role::Let => {
                self.pending = Some(number);
                self.note_twice(number, name, self.is_in_scope(name))
            }
            Role::Created => self.take_created(number, name),
            Role::OwnField => self.take_field(number, name),
            Role::Call => self.take_call(number, name),
            Role::Local => self.take_local(number, name),
            Role::Message => Ok(()),
        }
    }

    fn take_member(&mut self, number: usize, name: &str, role: Role) -> Result<(), WantOfMemory> {
        let is_taken = member(self.tokens, self.class, name, role, number).is_some();
        self.note_twice(number, name, is_taken)
    }

    fn note_twice(
        &mut self,
        number: usize,
        name: &str,
        is_taken: bool,
    ) -> Result<(), WantOfMemory> {
        if !is_taken {
            return Ok(());
        }
        let message = format!(in self.alloc;
            "the name \"{name}\" is taken: give this another name"
        )?;
        self.push_fault(number, message)
    }

    fn take_created(&mut self, number: usize, name: &str) -> Result<(), WantOfMemory> {
        if has_class(self.tokens, name, self.tokens.len()) {
            return Ok(());
        }
        let mut message = format!(in self.alloc; "no class is named \"{name}\"")?;
        for place in 0..self.tokens.len() {
            let other = spelling(self.tokens.get(place));
            if spelling(back(self.tokens, place, 1)) == "class" && are_near(name, other) {
                write!(message, ": is it {other}?")?;
                break;
            }
        }
        self.push_fault(number, message)
    }

    /// The member of the class whose name is near to this one.
    fn near_member(&self, name: &str, role: Role) -> &'a str {
        let mut depth: usize = 0;
        for number in self.class..self.tokens.len() {
            let other = spelling(self.tokens.get(number));
            match other {
                "{" => depth = depth.saturating_add(1),
                "}" => depth = depth.saturating_sub(1),
                "class" => break,
                _ => {
                    if are_near(name, other) && role_of(self.tokens, number, depth) == role {
                        return other;
                    }
                }
            }
        }
        ""
    }

    fn has_member(&self, name: &str, role: Role) -> bool {
        member(self.tokens, self.class, name, role, self.tokens.len()).is_some()
    }

    fn take_field(&mut self, number: usize, name: &str) -> Result<(), WantOfMemory> {
        if self.has_member(name, Role::Field) {
            return Ok(());
        }
        let mut message = format!(in self.alloc; "the class has no field \"{name}\"")?;
        let near = self.near_member(name, Role::Field);
        if !near.is_empty() {
            write!(message, ": is it {near}?")?;
        } else if self.has_member(name, Role::Method) {
            write!(message, ": a method is called, as this.{name}(..)")?;
        } else {
            write!(
                message,
                ": declare it at the top of the class, by `field {name};`"
            )?;
        }
        self.push_fault(number, message)
    }

    fn take_call(&mut self, number: usize, name: &str) -> Result<(), WantOfMemory> {
        let given = arguments(self.tokens, number);
        match builtin(name) {
            Some(wanted) if wanted == given => Ok(()),
            Some(wanted) => {
                let ending = if wanted == 1 { "" } else { "s" };
                let message = format!(in self.alloc;
                    "\"{name}\" takes {wanted} argument{ending}, and {given} are given"
                )?;
                self.push_fault(number, message)
            }
            None => {
                let message = self.no_builtin(name)?;
                self.push_fault(number, message)
            }
        }
    }

    fn no_builtin(&self, name: &str) -> Result<String, WantOfMemory> {
        let mut message = format!(in self.alloc; "there is no builtin \"{name}\"")?;
        let near = self.near_member(name, Role::Method);
        if self.has_member(name, Role::Method) {
            write!(
                message,
                ": a method of the object itself is this.{name}(..)"
            )?;
        } else if let Some(advice) = advice(name) {
            write!(message, ": {advice}")?;
        } else if !near.is_empty() {
            write!(message, ": is it this.{near}(..)?")?;
        } else if let Some(builtin) = builtin_of_others(name) {
            write!(message, ": is it {builtin}?")?;
        } else {
            write!(message, ": a method is called as OBJECT.{name}(..)")?;
        }
        Ok(message)
    }

    fn take_local(&mut self, number: usize, name: &str) -> Result<(), WantOfMemory> {
        if self.is_in_scope(name) {
            return Ok(());
        }
        let message = self.no_local(name)?;
        self.push_fault(number, message)
    }

    /// The name in scope that is near to this one.
    fn near_local(&self, name: &str) -> &'a str {
        for place in &self.scope {
            let other = spelling(self.tokens.get(*place));
            if are_near(name, other) {
                return other;
            }
        }
        ""
    }

    fn no_local(&self, name: &str) -> Result<String, WantOfMemory> {
        let mut message = format!(in self.alloc; "no local \"{name}\" is in scope")?;
        let (near, field) = (self.near_local(name), self.near_member(name, Role::Field));
        if self.has_member(name, Role::Field) {
            write!(message, ": a field of the object itself is this.{name}")?;
        } else if self.has_member(name, Role::Method) {
            write!(
                message,
                ": a method is called as this.{name}(..), and named by its text \"{name}\""
            )?;
        } else if let Some(advice) = advice(name) {
            write!(message, ": {advice}")?;
        } else if !near.is_empty() {
            write!(message, ": is it {near}?")?;
        } else if !field.is_empty() {
            write!(message, ": is it this.{field}?")?;
        } else {
            write!(
                message,
                ": a `let` of its block, or a parameter, comes before it"
            )?;
        }
        Ok(message)
    }
}

/// The token that is the name of the first class.
fn first_class(tokens: &[Token]) -> usize {
    for number in 0..tokens.len() {
        if spelling(back(tokens, number, 1)) == "class" {
            return number;
        }
    }
    0
}

/// The faults of the names of a program, up to twenty.
fn faults(alloc: Global, tokens: &[Token]) -> Result<Vec<NameFault>, WantOfMemory> {
    let mut walk = Walk::new(alloc, tokens);
    for number in 0..tokens.len() {
        walk.take(number)?;
    }
    let Walk { mut faults, .. } = walk;
    if faults.is_empty() && !has_class(tokens, "Root", tokens.len()) {
        let message = String::from_str(
            alloc,
            "no class is named \"Root\": each world begins with one object of it",
        )?;
        faults.push(NameFault {
            token: first_class(tokens),
            message,
        })?;
    }
    Ok(faults)
}

/// A hint for each fault of the names of a program's text.
pub fn names_hint(
    alloc: Global,
    source: Source<'_, '_>,
    tokens: &[Token],
) -> Result<String, WantOfMemory> {
    let mut out = String::new(alloc);
    let faults = faults(alloc, tokens)?;
    for fault in &faults {
        let at = place_of_token(source.text, fault.token) as usize;
        let span = Span::new(at, spelling(tokens.get(fault.token)).len());
        push_hint(alloc, &mut out, source, span, fault.message.as_str())?;
    }
    if faults.len() == MOST_FAULTS {
        out.push_str("further faults of this program, if there are any, are not shown\n")?;
    }
    Ok(out)
}
