//! Hints on a text that is no program: the word at which it goes wrong, and what to write.
use crate::place::{Source, Span, push_hint};
use crate::tokens::{
    back, ends_expression, is_name, is_operator, is_relation, spelling, token_span,
};
use model_tokens::{Token, TokenFault, Tokens, place_of_token, tokens};
use std::alloc::Global;
use tea_base::WantOfMemory;

/// A fault of the grammar: where it is, and what to write.
#[derive(Drop)]
struct Place {
    span: Span,
    message: &'static str,
}

/// The tokens of a text, where it is divided into tokens.
fn tokens_of(alloc: Global, text: &[u8]) -> Result<Option<Tokens>, WantOfMemory> {
    match tokens(alloc, text) {
        Ok(tokens) => Ok(Some(tokens)),
        Err(TokenFault::NoToken) => Ok(None),
        Err(TokenFault::WantOfMemory) => Err(WantOfMemory),
    }
}

/// What the language has in the place of a word that other languages have.
fn word_of_others(word: &str) -> Option<&'static str> {
    match word {
        "var" => Some("the language has no `var`: write `let x = ..;`"),
        "const" => Some("the language has no `const`: write `let x = ..;`"),
        "new" => Some("the language has no `new`: write `create(CLASS, OPTIONS)`"),
        "function" => Some(
            "the language has no `function`: a method is `name(..) { .. }` in a class",
        ),
        "def" | "func" | "fn" => Some(
            "no word stands before a method's name: a method is `name(..) { .. }` in a class",
        ),
        "static" => Some(
            "the language has no `static`: each field and each method is of an object",
        ),
        "async" => Some(
            "the language has no `async`: `this.future(MILLISECONDS).method()` sends a message to a later time",
        ),
        "await" => Some(
            "the language has no `await`: `this.future(MILLISECONDS).method()` sends a message to a later time",
        ),
        "import" => Some("the language has no `import`: a program is one file"),
        "export" => Some("the language has no `export`: a program is one file"),
        "extends" => Some("the language has no `extends`: a class has its own fields and methods"),
        "null" | "undefined" | "None" => Some("the value for nothing is `nil`"),
        _ => statement_of_others(word),
    }
}

/// What the language has in the place of a statement that other languages have.
fn statement_of_others(word: &str) -> Option<&'static str> {
    match word {
        "for" => Some(
            "the language has no `for`: write `let i = 0; while (i < n) { .. i = i + 1; }`",
        ),
        "do" | "foreach" | "loop" | "repeat" | "until" => Some(
            "the language has no such loop: write `while (..) { .. }`",
        ),
        "elif" | "elseif" | "elsif" => Some(
            "the language has no such word: write `else { if (..) { .. } }`",
        ),
        "switch" => Some("the language has no `switch`: write `if (..) { .. } else { .. }`"),
        "try" => Some(
            "the language has no `try`: a fault ends the message in which it comes, and the world goes on",
        ),
        "throw" => Some("the language has no `throw`: write `return nil;`"),
        "break" => Some("the language has no `break`: make it a part of the test of the `while`"),
        "continue" => Some(
            "the language has no `continue`: put the rest of the block into an `if`",
        ),
        _ => None,
    }
}

/// What the language has in the place of a name that other languages have.
fn name_of_others(name: &str) -> Option<&'static str> {
    match name {
        "self" | "me" => Some("the object itself is `this`"),
        "and" => Some("the language has no `and`: write `&&`"),
        "or" => Some("the language has no `or`: write `||`"),
        "not" => Some("the language has no `not`: write `!`"),
        "print" | "println" | "console" => Some(
            "a model prints nothing: it publishes events, which views watch",
        ),
        "setTimeout" | "setInterval" => Some(
            "`this.future(MILLISECONDS).method()` sends a message to a later time",
        ),
        "Math" => Some(
            "the language has no `Math`: numbers are whole, and `random(N)` is a builtin",
        ),
        _ => None,
    }
}

/// What the language has in the place of a word or a name that other languages have.
pub fn advice(word: &str) -> Option<&'static str> {
    match word_of_others(word) {
        Some(message) => Some(message),
        None => name_of_others(word),
    }
}

/// What is wrong with two tokens in a row, where the mark is under the second one.
fn of_second(before: &str, here: &str) -> Option<&'static str> {
    match (before, here) {
        ("else", "if") => Some("the language has no `else if`: write `else { if (..) { .. } }`"),
        ("else", _) => Some("a `{` is missing: the block after `else` is in braces"),
        ("return", ";") => Some("the language has no `return;`: write `return nil;`"),
        ("class", _) => Some("the name of a class begins with an upper-case letter"),
        ("if", _) => Some("a `(` is missing: write `if (TEST) { .. }`"),
        ("while", _) => Some("a `(` is missing: write `while (TEST) { .. }`"),
        ("field", _) => Some(
            "the name of a field is missing: it begins with a lower-case letter or `_`, and is no reserved word",
        ),
        ("let", _) => Some(
            "a name is missing: it begins with a lower-case letter or `_`, and is no reserved word",
        ),
        ("create", _) => Some("a `(` is missing: write `create(CLASS, OPTIONS)`"),
        ("}", "field") => Some("the fields of a class come before its methods"),
        (_, "extends") => word_of_others("extends"),
        (_, "and" | "or") => name_of_others(here),
        _ => None,
    }
}

/// What is wrong with two tokens in a row, where the mark is under the first one.
fn of_first(before: &str, here: &str) -> Option<&'static str> {
    match (before, here) {
        ("+", "+") => Some("the language has no `++`: write `x = x + 1;`"),
        ("+", "=") => Some("the language has no `+=`: write `x = x + ..;`"),
        ("-", "=") => Some("the language has no `-=`: write `x = x - ..;`"),
        ("*", "=") => Some("the language has no `*=`: write `x = x * ..;`"),
        ("/", "=") => Some("the language has no `/=`: write `x = x / ..;`"),
        ("==", "=") => Some("the language has no `===`: write `==`"),
        ("!=", "=") => Some("the language has no `!==`: write `!=`"),
        ("=", ">") => Some(
            "the language has no `=>`: a handler is a method, which is named by its text",
        ),
        _ => None,
    }
}

/// What is wrong with a field of a class whose name is followed by this.
fn of_field(here: &str) -> Option<&'static str> {
    match here {
        "=" => Some("a field has no value here: set it in `init(options) { this.x = ..; }`"),
        "," => Some("a field has a line of its own: `field NAME;`"),
        _ => None,
    }
}

/// Whether the tokens before one end with the test of an `if` or a `while`.
fn follows_test(tokens: &[Token], number: usize) -> bool {
    let mut open: usize = 0;
    for count in 1..number {
        match spelling(back(tokens, number, count)) {
            ")" => open = open.saturating_add(1),
            "(" => {
                open = open.saturating_sub(1);
                if open == 0 {
                    return matches!(
                        spelling(back(tokens, number, count.saturating_add(1))),
                        "if" | "while"
                    );
                }
            }
            _ if open == 0 => return false,
            _ => {}
        }
    }
    false
}

/// How many braces are open before a token.
fn depth_before(tokens: &[Token], number: usize) -> usize {
    let mut depth: usize = 0;
    for token in tokens.iter().take(number) {
        match spelling(Some(token)) {
            "{" => depth = depth.saturating_add(1),
            "}" => depth = depth.saturating_sub(1),
            _ => {}
        }
    }
    depth
}

/// Whether a method's parameters end before a token: a name and round brackets, of which no expression is a part.
fn follows_parameters(tokens: &[Token], number: usize) -> bool {
    depth_before(tokens, number) == 1 && spelling(back(tokens, number, 1)) == ")"
}

/// How many tokens before a `{` the name is with which a head begins that is like a method's.
fn head_before(tokens: &[Token], number: usize) -> Option<usize> {
    if spelling(tokens.get(number)) != "{" || spelling(back(tokens, number, 1)) != ")" {
        return None;
    }
    let mut open: usize = 0;
    for count in 1..number {
        match spelling(back(tokens, number, count)) {
            ")" => open = open.saturating_add(1),
            "(" => {
                open = open.saturating_sub(1);
                let name = count.saturating_add(1);
                if open == 0 && is_name(back(tokens, number, name)) {
                    return Some(name);
                }
                if open == 0 {
                    return None;
                }
            }
            _ => {}
        }
    }
    None
}

/// The `for` with which the statement of a token begins, as how many tokens it is before.
fn for_before(tokens: &[Token], number: usize) -> Option<usize> {
    for count in 1..number {
        match spelling(back(tokens, number, count)) {
            "for" => return Some(count),
            "{" | "}" => return None,
            _ => {}
        }
    }
    None
}

/// What follows an expression that is over.
fn after_expression(tokens: &[Token], number: usize) -> Option<&'static str> {
    let here = tokens.get(number);
    let word = spelling(here);
    if word == "[" {
        return Some(
            "an item of a list is `at(LIST, PLACE)`, and a list with another item `put(LIST, PLACE, VALUE)`",
        );
    }
    if is_relation(word) {
        return Some("relations do not follow one another: join two of them by `&&`");
    }
    let is_of_other = spelling(back(tokens, number, 2)) == "."
        && spelling(back(tokens, number, 3)) != "this";
    if is_of_other && word != "(" {
        return Some(
            "a field of another object is not seen: write a method that returns it, and call that",
        );
    }
    if word == "=" && open_bracket(tokens, number) == "(" {
        return Some("`=` sets a value: `==` compares two");
    }
    if word == "=" {
        return Some(
            "only a local or a field of the object itself is set: `x = ..;` or `this.x = ..;`",
        );
    }
    None
}

/// The innermost bracket that is open in the statement of a token, nothing where none is.
fn open_bracket(tokens: &[Token], number: usize) -> &'static str {
    let mut closed: usize = 0;
    for count in 1..number {
        match spelling(back(tokens, number, count)) {
            ")" | "]" => closed = closed.saturating_add(1),
            "(" if closed == 0 => return "(",
            "[" if closed == 0 => return "[",
            "(" | "[" => closed = closed.saturating_sub(1),
            ";" | "{" | "}" => return "",
            _ => {}
        }
    }
    ""
}

/// What is missing before a token where a bracket is open.
fn of_bracket(tokens: &[Token], number: usize) -> Option<&'static str> {
    let here = tokens.get(number);
    let begins_value = is_name(here)
        || matches!(
            spelling(here),
            "0" | "\"" | "this" | "nil" | "true" | "false" | "create"
        );
    match open_bracket(tokens, number) {
        "(" if begins_value => Some("a `,` or a `)` is missing"),
        "(" => Some("a `)` is missing"),
        "[" if begins_value => Some("a `,` or a `]` is missing"),
        "[" => Some("a `]` is missing"),
        _ => None,
    }
}

/// What is wrong with the name of a class that stands in the place of an expression.
fn of_class_name(name: &str) -> &'static str {
    name_of_others(name).unwrap_or(
        "a name in an expression begins with a lower-case letter: the truth values are `true` and `false`",
    )
}

/// What is wrong with a token that begins no expression and no statement.
fn of_begin(tokens: &[Token], number: usize) -> Option<&'static str> {
    let before = spelling(back(tokens, number, 1));
    let begins_value = is_operator(before)
        || matches!(before, "=" | "(" | "," | "[" | "return" | "!");
    match tokens.get(number) {
        Some(Token::ClassName(name)) if begins_value => Some(of_class_name(name.as_str())),
        token if begins_value && spelling(token) == "{" => Some(
            "an object in braces is no value: a list is `[a, b]`",
        ),
        token if before != "." && spelling(token) == "future" => Some(
            "`future` follows an object: `this.future(MILLISECONDS).method()`",
        ),
        _ => None,
    }
}

/// Whether a statement, or a line of a class, may begin with a token.
fn begins_statement(token: Option<&Token>) -> bool {
    is_name(token)
        || matches!(
            spelling(token),
            "let" | "if" | "while" | "return" | "this" | "field" | "create" | "}"
        )
}

/// What is wrong with a token that stands at a depth of braces at which it cannot stand.
fn of_depth(tokens: &[Token], number: usize) -> Option<&'static str> {
    let here = spelling(tokens.get(number));
    let is_statement = matches!(here, "let" | "if" | "while" | "return" | "this");
    let depth = depth_before(tokens, number);
    if depth == 0 {
        return match here {
            "class" => None,
            "}" => Some("no brace is open that this one closes"),
            _ if number == 0 => Some("a program is classes: `class NAME { .. }`"),
            _ => Some(
                "nothing but a class stands outside of a class: is a `}` too many before this?",
            ),
        };
    }
    match here {
        "class" => Some("a `}` is missing before this class"),
        "field" if depth > 1 => Some("a field is declared at the top of its class"),
        _ if depth == 1 && is_statement => Some(
            "a statement stands in a method: `name(..) { .. }`",
        ),
        _ => None,
    }
}

/// What is wrong at a token by the one or two before it.
fn of_before(tokens: &[Token], number: usize) -> Option<&'static str> {
    let here = spelling(tokens.get(number));
    match spelling(back(tokens, number, 2)) {
        "field" if of_field(here).is_some() => of_field(here),
        "let" => Some("a `=` is missing: write `let x = ..;`"),
        _ => of_second(spelling(back(tokens, number, 1)), here),
    }
}

/// What is wrong at a token, said of that token.
fn at_token(tokens: &[Token], number: usize) -> Option<&'static str> {
    if let Some(message) = of_before(tokens, number) {
        return Some(message);
    }
    if let Some(message) = of_begin(tokens, number) {
        return Some(message);
    }
    if spelling(back(tokens, number, 1)) == "." && spelling(tokens.get(number)) == "0" {
        return Some("a number is whole: count in tenths or hundredths");
    }
    if follows_test(tokens, number) || follows_parameters(tokens, number) {
        return Some("a `{` is missing: a block is in braces");
    }
    if ends_expression(back(tokens, number, 1)) {
        return after_expression(tokens, number);
    }
    of_depth(tokens, number)
}

/// What is wrong at a token that no other rule names.
fn otherwise(tokens: &[Token], number: usize) -> &'static str {
    let before = spelling(back(tokens, number, 1));
    let here = spelling(tokens.get(number));
    if is_operator(before) || matches!(before, "=" | "(" | "," | "[" | "return" | "!") {
        return "an expression is missing here: a value, a name, a call, or one of these in round brackets";
    }
    if here == ")" || here == "]" {
        return "no bracket is open that this one closes";
    }
    if ends_expression(back(tokens, number, 1)) {
        return "an operator, or the end of the expression, is missing before this";
    }
    if before == "." {
        return "the name of a method is missing, or of a field after `this.`";
    }
    "the program cannot go on with this"
}

/// The place of a token that is so many before one, and what is wrong with it.
fn place_before(text: &[u8], number: usize, count: usize, message: &'static str) -> Place {
    let begin = place_of_token(text, number.saturating_sub(count)) as usize;
    Place {
        span: token_span(text, begin),
        message,
    }
}

/// What is wrong with a word before a token: one that other languages have, or the name of a method in the midst of another one.
fn word_fault(text: &[u8], tokens: &[Token], number: usize) -> Option<Place> {
    if let Some(count) = for_before(tokens, number) {
        let message = word_of_others("for").unwrap_or_default();
        return Some(place_before(text, number, count, message));
    }
    if let Some(count) = head_before(tokens, number) {
        let before = spelling(back(tokens, number, count.saturating_add(1)));
        let is_first = matches!(before, ";" | "{" | "}");
        match word_of_others(spelling(back(tokens, number, count))) {
            Some(message) => return Some(place_before(text, number, count, message)),
            None if is_first => {
                let message =
                    "a method begins here, inside another one: a `}` is missing before it";
                return Some(place_before(text, number, count, message));
            }
            None => {}
        }
    }
    name_fault(text, tokens, number)
}

/// What is wrong with a name before a token that other languages have.
fn name_fault(text: &[u8], tokens: &[Token], number: usize) -> Option<Place> {
    let owner = spelling(back(tokens, number, 3));
    if spelling(back(tokens, number, 2)) == "." && matches!(owner, "self" | "me") {
        return Some(place_before(text, number, 3, name_of_others(owner)?));
    }
    let before = spelling(back(tokens, number, 1));
    let message = match before {
        "not" => name_of_others(before),
        _ => word_of_others(before),
    };
    Some(place_before(text, number, 1, message?))
}

/// What is wrong with two operators in a row.
fn operator_fault(text: &[u8], tokens: &[Token], number: usize, here: Span) -> Option<Place> {
    let word = spelling(back(tokens, number, 1));
    if number > 1 && word == "-" && spelling(back(tokens, number, 2)) == "-" {
        let begin = place_of_token(text, number.saturating_sub(2)) as usize;
        return Some(Place {
            span: Span::new(begin, 2),
            message: "the language has no `--`: write `x = x - 1;`",
        });
    }
    let message = of_first(word, spelling(tokens.get(number)))?;
    let before = place_of_token(text, number.saturating_sub(1)) as usize;
    Some(Place {
        span: Span::new(before, here.end().saturating_sub(before)),
        message,
    })
}

/// What is missing behind an expression.
fn missing_fault(text: &[u8], tokens: &[Token], number: usize) -> Option<Place> {
    if !ends_expression(back(tokens, number, 1)) {
        return None;
    }
    let message = match of_bracket(tokens, number) {
        Some(message) => message,
        None if begins_statement(tokens.get(number)) => "a `;` is missing",
        None => return None,
    };
    let before = place_of_token(text, number.saturating_sub(1)) as usize;
    Some(Place {
        span: Span::new(token_span(text, before).end(), 1),
        message,
    })
}

/// What is wrong at a token, and which part of the text is marked.
fn token_fault(text: &[u8], tokens: &[Token], number: usize, at: usize) -> Place {
    let here = token_span(text, at);
    if text.get(at..).unwrap_or_default().starts_with(b"/*") {
        return Place {
            span: Span::new(at, 2),
            message: "a comment begins with `//`, and ends with its line",
        };
    }
    if let Some(place) = operator_fault(text, tokens, number, here) {
        return place;
    }
    if let Some(place) = word_fault(text, tokens, number) {
        return place;
    }
    if let Some(message) = at_token(tokens, number) {
        return Place {
            span: here,
            message,
        };
    }
    match missing_fault(text, tokens, number) {
        Some(place) => place,
        None => Place {
            span: here,
            message: otherwise(tokens, number),
        },
    }
}

/// What is missing at the end of a text.
fn end_fault(text: &[u8], tokens: &[Token]) -> Place {
    let end = Span::new(text.len(), 1);
    if tokens.is_empty() {
        return Place {
            span: Span::new(0, 1),
            message: "the text is empty: a program has a class Root",
        };
    }
    if depth_before(tokens, tokens.len()) > 0 {
        return Place {
            span: shown_end(text),
            message: "the text ends where a `}` is missing",
        };
    }
    Place {
        span: end,
        message: "the text ends where more has to follow",
    }
}

/// The place after the last byte that is no blank.
fn shown_end(text: &[u8]) -> Span {
    let mut end: usize = 0;
    for (place, byte) in text.iter().enumerate() {
        if !byte.is_ascii_whitespace() {
            end = place.saturating_add(1);
        }
    }
    Span::new(end, 1)
}

/// The quote with which the literal at a place begins, in the same line.
fn quote_before(text: &[u8], at: usize) -> Option<usize> {
    let mut quote = None;
    for (place, byte) in text.iter().enumerate() {
        if place >= at {
            break;
        }
        match byte {
            b'\n' => quote = None,
            b'"' => quote = Some(place),
            _ => {}
        }
    }
    quote
}

/// What is wrong at a byte with which no token goes on.
fn byte_fault(text: &[u8], at: usize) -> Place {
    let byte = text.get(at).copied().unwrap_or(b'\n');
    let is_end = byte == b'\n' || byte == b'\r';
    if let Some(quote) = quote_before(text, at) {
        if is_end {
            let span = Span::new(quote, at.saturating_sub(quote));
            return Place {
                span,
                message: "a text is not closed: a `\"` is missing, before the end of the line",
            };
        }
        let escape = text.get(at.saturating_sub(1)).copied() == Some(b'\\');
        if escape {
            return Place {
                span: Span::new(at.saturating_sub(1), 2),
                message: "no such escape: there are `\\\"`, `\\\\`, `\\n`, and `\\xHH` for another control",
            };
        }
    }
    if byte.is_ascii_digit() {
        return Place {
            span: token_span(text, at),
            message: "the number is too large: the largest one is 9223372036854775807",
        };
    }
    if byte.is_ascii_alphabetic() || byte == b'_' {
        return Place {
            span: token_span(text, at),
            message: "the name is too long: a name has at most 64 bytes",
        };
    }
    symbol_fault(text, at, byte)
}

/// What is wrong at a byte that begins no token.
fn symbol_fault(text: &[u8], at: usize, byte: u8) -> Place {
    let before = text.get(at.saturating_sub(1)).copied().unwrap_or_default();
    let span = Span::new(at, 1);
    let one_before = Span::new(at.saturating_sub(1), 1);
    match (before, byte) {
        (b'&', _) => Place {
            span: one_before,
            message: "no token begins with one `&`: the operator is `&&`",
        },
        (b'|', _) => Place {
            span: one_before,
            message: "no token begins with one `|`: the operator is `||`",
        },
        (_, b'\'') => Place {
            span,
            message: "a text is between two `\"`",
        },
        (_, b'`') => Place {
            span,
            message: "a text is between two `\"`",
        },
        (_, b'?') => Place {
            span,
            message: "no token begins with `?`: write `if (..) { .. } else { .. }`",
        },
        (_, b':') => Place {
            span,
            message: "no token begins with `:`: the language has neither types nor objects in braces",
        },
        (_, b'#') => Place {
            span,
            message: "a comment begins with `//`",
        },
        _ => Place {
            span,
            message: "no token begins with this",
        },
    }
}

/// A hint on a text that is no program, which goes wrong at a place.
pub fn syntax_hint(
    alloc: Global,
    source: Source<'_, '_>,
    at: usize,
) -> Result<String, WantOfMemory> {
    let text = source.text;
    let mut out = String::new(alloc);
    let Place { span, message } = match tokens_of(alloc, text)? {
        None => byte_fault(text, at),
        Some(tokens) => {
            let number = match tokens_of(alloc, text.get(..at).unwrap_or_default())? {
                Some(front) => front.as_slice().len(),
                None => 0,
            };
            if number < tokens.as_slice().len() {
                token_fault(text, tokens.as_slice(), number, at)
            } else {
                end_fault(text, tokens.as_slice())
            }
        }
    };
    push_hint(alloc, &mut out, source, span, message)?;
    Ok(out)
}
